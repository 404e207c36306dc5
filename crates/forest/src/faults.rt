// Why a person is not laid.

// A refusal of one person more.
#[derive(Clone, Copy, PartialEq, Eq, Debug)]
pub enum LayFault {
    // A 65th person.
    TooManyPersons,
    // A link of a slot above 63.
    SlotLacking,
}

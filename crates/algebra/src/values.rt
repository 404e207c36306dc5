// The values of the four algebras, with what holds of each.
ghost use Rattle.std.specs.Prelude.{◌≡◌, ◌≤◌, ◌==◌};

// Where counts and costs stop. As a cost it means that there is none. The rules publish that number, and a least cost adds and compares with it as with
// any other, where an `Option` would need a case.
pub const CAP: u32 = u32::MAX;

// Whether anything fits.
#[derive(Clone, Copy, PartialEq, Eq, Debug)]
pub struct Truth {
    pub yes: bool,
}

// How many fit, at most the cap.
#[derive(Clone, Copy, PartialEq, Eq, Debug)]
pub struct Count {
    pub number: u32,
    ghost capped: { number ≤ 4294967295 },
}

// The least cost, or the cap where nothing has a cost.
#[derive(Clone, Copy, PartialEq, Eq, Debug)]
pub struct Least {
    pub cost: u32,
    ghost capped: { cost ≤ 4294967295 },
}

// The least cost and how many reach it, at most the cap. No cost, which is the cap, goes with the number 0 and with no other.
#[derive(Clone, Copy, PartialEq, Eq, Debug)]
pub struct Best {
    pub cost: u32,
    pub number: u32,
    ghost capped: { cost ≤ 4294967295 },
    ghost counted: { number ≤ 4294967295 },
    ghost reached: { (cost == 4294967295) ≡ (number == 0) },
}

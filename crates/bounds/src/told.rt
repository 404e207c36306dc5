// How an answer or a refusal is printed.
use refusal::Refusal;
use std::io;

pub(crate) fn print_refusal(rt: &HostRuntime, name: &str, refusal: Refusal) -> io::Result<()> {
    println!(rt; "{name}: refused {refusal}")
}

pub(crate) fn print_answer(
    rt: &HostRuntime,
    name: &str,
    answer: Result<usize, Refusal>,
) -> io::Result<()> {
    match answer {
        Ok(number) => println!(rt; "{name}: {number}"),
        Err(refusal) => print_refusal(rt, name, refusal),
    }
}

pub(crate) fn print_number(rt: &HostRuntime, name: &str, number: Option<usize>) -> io::Result<()> {
    match number {
        Some(number) => println!(rt; "{name}: {number}"),
        None => println!(rt; "{name}: none"),
    }
}

// Refusals as they print. Their text is promised; that printing goes through is not, so it is tried with each kind.
use lines::Place;
use report::Refusal;
use rulefile::{FileFault, ItemFault, LineFault};
use std::test::Fail;
use writing::Unwritten;

const AT: Place = Place {
    line: 2,
    offset: 16388,
};

const REFUSALS: [(Refusal, &str); 10] = [
    (Refusal::File(FileFault::WrongHead), "1 1 0"),
    (
        Refusal::File(FileFault::Line(LineFault::NoMark(AT))),
        "2 2 16388",
    ),
    (
        Refusal::File(FileFault::Line(LineFault::Item(ItemFault::NotDue(AT)))),
        "3 2 16388",
    ),
    (
        Refusal::File(FileFault::Line(LineFault::Item(ItemFault::OutOfRange(AT)))),
        "4 2 16388",
    ),
    (
        Refusal::File(FileFault::Line(LineFault::Repeated(AT))),
        "5 2 16388",
    ),
    (
        Refusal::File(FileFault::Line(LineFault::NotAllowed(AT))),
        "6 2 16388",
    ),
    (Refusal::File(FileFault::NoSlot(AT)), "7 2 16388"),
    (Refusal::Text(Unwritten::NoRoom(65536)), "8 65536"),
    (Refusal::Text(Unwritten::NoLine(0)), "9 0"),
    (Refusal::TooLong, "10"),
];

#[test]
fn refusals_print(rt: HostRuntime) -> Result<(), Fail> {
    for (refusal, due) in REFUSALS {
        let text = format!(in rt.alloc(); "{refusal}")?;
        assert_eq!(rt; text.as_str(), due);
    }
    Ok(())
}

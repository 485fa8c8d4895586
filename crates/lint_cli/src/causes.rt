//! What is printed for each cause.
ghost use Rattle.std.specs.Prelude.{◌≡◌};
ghost use Rattle.lint_cli.specs.Causes.{cause_text};

use script_lint::Cause;

/// What is said of the word.
pub fn cause_text(cause: Cause) -> &'static [u8]
    ensures { result.now ≡ cause_text cause }
{
    match cause {
        Cause::LongLine => b"begins a line of more than 4096 bytes",
        Cause::NotKeyword =>
            b"is no keyword; keywords are written in lower case: driver, teach, plug, pull, disable, enable, eject, relate, reserve, complete, open, close, window, change, watch, unwatch",
        Cause::FewWords => b"needs more words behind it",
        Cause::ManyWords =>
            b"is a word too many; a comment stands on a line of its own, and a list has no blanks",
        Cause::NotPath =>
            b"is no path of a device: three parts between backslashes, as HTREE\\ROOT\\0",
        Cause::NotName => b"is no name: 1 to 64 letters, digits, '_', '-' and '.'",
        Cause::NotDriverKind => b"is no kind of driver: scripted, steady or stubborn",
        Cause::NotAsk => b"is neither add nor a request, as START_DEVICE (without IRP_MN_)",
        Cause::NotRequest => b"is no request, as START_DEVICE (without IRP_MN_)",
        Cause::NotAnswer => b"is no answer: ok, fail or pend",
        Cause::AddPended => b"cannot be the answer to add, which is not left unanswered",
        Cause::NotUses => b"is no number from 1 to 1000000 that says how often the rule answers",
        Cause::NotRelation => b"is no kind of relation: removal or ejection",
        Cause::NotOk => b"is neither ok nor fail",
        Cause::NotAgreement => b"is neither ok nor refuse",
        Cause::NotId => b"is no identifier: 1 to 199 bytes, each printable ASCII and none a comma",
        Cause::EmptyId => b"has an empty identifier; a list has no blanks and no comma at its end",
        Cause::NotJoined =>
            b"joined with the instance behind it is no path of three parts: DEVICE is BUS\\NAME, INSTANCE has no backslash",
        Cause::NotAttribute =>
            b"is no attribute: hw=, compat=, need= and reqs=; a list has no blanks",
        Cause::NotNeed =>
            b"does not say what the device requires: need= and reqs=; a list has no blanks",
        Cause::Twice => b"is the second value of an attribute that stands once",
        Cause::BesideBytes => b"stands in need= beside reqs=, which takes the place of all need=",
        Cause::ManyIds => b"has more than 64 identifiers",
        Cause::ManyNeeds => b"is the ninth need=, and 8 are the most",
        Cause::ManyGroups => b"has more than 16 groups",
        Cause::ManyWants => b"has more than 16 wants in a group",
        Cause::NoKind => b"is not KIND:RANGE, as port:0x300-0x307 or irq:5; a list has no blanks",
        Cause::NotKind => b"begins with no kind of resource: port, irq, mem, dma or bus",
        Cause::NotShared => b"ends with something else than :shared",
        Cause::NoSizeHere =>
            b"has a length or an alignment where none can stand: only port and mem have /LENGTH@ALIGNMENT in this order, bus has /LENGTH, and a range of reserve or window has neither",
        Cause::NotNumber =>
            b"has something else where a number stands: decimal digits, or hexadecimal ones behind 0x",
        Cause::WideNumber => b"has a number above 18446744073709551615",
        Cause::TurnedRange => b"has a range whose first number is above its second",
        Cause::WideBus => b"has a bus number above 255",
        Cause::ZeroLength => b"has a length of 0",
        Cause::ZeroAlignment => b"has an alignment of 0",
        Cause::LongLength => b"has a length that is greater than its range",
        Cause::NotWindow => b"is no window: a bridge has windows of port and mem",
        Cause::NotHex => b"is not written as two hexadecimal digits for each byte",
        Cause::BytesSize => b"has bytes whose sizes do not agree",
        Cause::BytesType => b"has a descriptor of a type that no kind of resource stands for",
        Cause::BytesAlternative => b"has a list that begins with an alternative",
        Cause::BytesWant => b"has a descriptor whose numbers make no want",
        Cause::BytesFull => b"has more wants, groups or lists than there may be",
        Cause::BytesEmpty => b"has a list without a group",
    }
}

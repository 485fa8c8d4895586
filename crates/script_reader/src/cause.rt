/// Why a line of a script is bad. Beside it stands a text of the line, the word or the part of a word that it is true of.
/// This project's own.
#[derive(Clone, Copy, PartialEq, Eq)]
pub enum Cause {
    /// The line, which is named whole, has more than 4,096 bytes before its line feed.
    LongLine,
    /// The first word is no keyword.
    NotKeyword,
    /// Words are missing behind the keyword.
    FewWords,
    /// The line could be good without this word and those behind it, or is too long by them.
    ManyWords,
    /// The word is no path of three parts.
    NotPath,
    /// The word is no name: 1 to 64 letters, digits, `_`, `-` and `.`.
    NotName,
    /// The word is no kind of driver.
    NotDriverKind,
    /// The word is neither `add` nor a request.
    NotAsk,
    /// The word is no request.
    NotRequest,
    /// The word is no answer of a driver.
    NotAnswer,
    /// `add` is not left unanswered.
    AddPended,
    /// The word is no number from 1 to 1,000,000.
    NotUses,
    /// The word is no kind of relation.
    NotRelation,
    /// The word is neither `ok` nor `fail`.
    NotOk,
    /// The word is neither `ok` nor `refuse`.
    NotAgreement,
    /// The text is no identifier.
    NotId,
    /// An identifier of the list is empty.
    EmptyId,
    /// This device ID and the instance ID, joined by a backslash, are no path of three parts.
    NotJoined,
    /// The word is no attribute.
    NotAttribute,
    /// The word is no attribute that says what a device requires.
    NotNeed,
    /// An attribute that stands once has this value too.
    Twice,
    /// `need` of this value stands beside `reqs`.
    BesideBytes,
    /// More than 64 identifiers.
    ManyIds,
    /// More than 8 attributes `need`.
    ManyNeeds,
    /// More than 16 groups.
    ManyGroups,
    /// More than 16 wants in a group.
    ManyWants,
    /// There is no colon, and so no kind of resource.
    NoKind,
    /// What stands before the colon is no kind of resource.
    NotKind,
    /// What stands behind the second colon is not `shared`.
    NotShared,
    /// A length or an alignment stands where none can.
    NoSizeHere,
    /// What should be a number is none.
    NotNumber,
    /// A number is 2^64 or more.
    WideNumber,
    /// The first number of the range is above the second.
    TurnedRange,
    /// A bus number is above 255.
    WideBus,
    /// A length of 0.
    ZeroLength,
    /// An alignment of 0.
    ZeroAlignment,
    /// The length is greater than the range.
    LongLength,
    /// A bridge has windows of ports and memory alone.
    NotWindow,
    /// The bytes of `reqs` are not written as hexadecimal digits in pairs.
    NotHex,
    /// The bytes of `reqs` have sizes that do not agree.
    BytesSize,
    /// The bytes of `reqs` have a descriptor of a type that no kind stands for.
    BytesType,
    /// The bytes of `reqs` begin a list with an alternative.
    BytesAlternative,
    /// The bytes of `reqs` have numbers that make no want.
    BytesWant,
    /// The bytes of `reqs` have more wants, groups or lists than there may be.
    BytesFull,
    /// The bytes of `reqs` have a list without a group.
    BytesEmpty,
}

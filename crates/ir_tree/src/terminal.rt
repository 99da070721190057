/// What a token is to the grammar. Words that the grammar never tells apart are one terminal.
#[derive(Clone, Copy, Debug, PartialEq, Eq)]
pub enum Terminal {
    LeftParen,
    RightParen,
    LeftBracket,
    RightBracket,
    LeftBrace,
    RightBrace,
    Less,
    Greater,
    Comma,
    Equals,
    Global,
    Local,
    Comdat,
    Label,
    Int,
    Str,
    CStr,
    Group,
    Meta,
    Dots,
    Opaque,
    SourceFilename,
    Target,
    /// `datalayout` or `triple`.
    TargetPart,
    TypeWord,
    OpaqueWord,
    Attributes,
    /// `global` or `constant`.
    Variable,
    Declare,
    Define,
    Linkage,
    /// A word of visibility, of preemption or of storage in a library.
    Hword,
    /// `unnamed_addr` or `local_unnamed_addr`.
    Unnamed,
    ExternallyInitialized,
    Section,
    Partition,
    CodeModel,
    Align,
    ComdatWord,
    Gc,
    /// `prefix`, `prologue` or `personality`.
    Extra,
    /// `cc`, before the number of a calling convention.
    CcNumber,
    /// The name of a calling convention.
    CcWord,
    Void,
    /// `i` and digits.
    IntType,
    Ptr,
    /// `x`, between the count and the element of an array's type.
    Times,
    True,
    False,
    Null,
    Undef,
    Poison,
    Zero,
    GetElementPtr,
    /// `ptrtoint` or `trunc`: a cast that a constant may be.
    ConstCast,
    /// `zext` or `sext`.
    Cast,
    /// `add`, `sub` or `xor`: an operation that a constant may be.
    ConstBinop,
    /// Every other operation on two integers.
    Binop,
    Icmp,
    Pred,
    Select,
    Freeze,
    Phi,
    Alloca,
    Load,
    Volatile,
    Store,
    /// `tail` or `notail`.
    Tail,
    Call,
    LandingPad,
    Cleanup,
    /// `catch` or `filter`.
    ClauseWord,
    To,
    LabelWord,
    Unwind,
    Invoke,
    Ret,
    Br,
    Switch,
    Unreachable,
    Resume,
    /// `nuw`, a flag of operations and of getelementptr.
    Nuw,
    /// A flag of operations.
    Iflag,
    /// A flag of getelementptr.
    Gepflag,
    InRange,
    /// A word that is not reserved and no flag.
    Word,
}

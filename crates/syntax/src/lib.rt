// What travels between the crates: what the assembler knows of a stream, as places of it and numbers. specs/ says of each what it means in the
// definition's terms.
#![tactic(auto)]

ghost use Rattle.std.specs.Prelude.{◌≡◌};
ghost use Rattle.definition.specs.Syntax.{code};
ghost use Rattle.definition.specs.Instructions as Instructions;
ghost use Rattle.syntax.specs.Items.{none_seen};
ghost use Rattle.syntax.specs.Marks.{no_marks};
ghost use Rattle.syntax.specs.Plain.{spaces_is};
ghost use Rattle.syntax.specs.Refusals.{number, refusal};
ghost use Rattle.syntax.specs.Tokens.{space_of};

// ## What is refused

// Why a stream is refused, by document 01's numbers.
#[derive(Clone, Copy)]
pub enum Fault {
    TooLong = 1,
    Ended = 2,
    TooLarge = 3,
    UnknownByte = 4,
    BadIdentifier = 5,
    BadString = 6,
    TooMany = 7,
    BrokenBlocks = 8,
    SecondStart = 9,
    WorkTooShort = 10,
    LateImport = 11,
    TooManyTypes = 12,
    NameTaken = 13,
    NoSuchName = 14,
    NoSuchType = 15,
    TypeDiffers = 16,
    OtherLabel = 17,
    OutputTooShort = 18,
    Padded = 19,
    PointsNowhere = 20,
}

impl From<Fault> for u8 {
    ghost from_gives = { λ f n. n ≡ number f };

    fn from(f: Fault) -> u8 {
        f as u8
    }
}

// A fault, the record that has it, and on a duplicate where the name was first used.
#[derive(Clone, Copy)]
pub struct Refusal {
    pub fault: Fault,
    pub rec: u32,
    pub first: u32,
}

// Anything but a duplicate: the record stands for both.
pub fn refusal_at(fault: Fault, rec: u32) -> Refusal
    ensures { result ≡ refusal fault rec }
{
    Refusal {
        fault,
        rec,
        first: rec,
    }
}

// What resolving gives, or its refusal.
pub type Resolved<T> = Result<T, Refusal>;

// ## What reading gives

// A value and the place after it.
pub type Read<T> = Result<(T, usize), Fault>;

// Where a run ends that was only passed over.
pub type Pass = Result<usize, Fault>;

// ## Parts of the stream, and lists

// A part of the stream: where its first byte stands, and how many there are.
#[derive(Clone, Copy)]
pub struct Part {
    pub at: usize,
    pub len: u32,
}

// What a list is of.
#[derive(Clone, Copy)]
pub enum Elem {
    Local,
    Type,
    String,
    Index,
}

// A list: where its first element stands, and how many there are.
#[derive(Clone, Copy)]
pub struct List {
    pub at: usize,
    pub count: u32,
}

// ## Indices

// The index spaces of a module.
#[derive(Clone, Copy)]
pub enum Space {
    Funcs,
    Tables,
    Mems,
    Globals,
    Types,
    Elems,
    Datas,
}

// The number of a space among the seven.
pub fn space_code(k: Space) -> usize
    ensures { result ≡ code (space_of k) }
{
    match k {
        Space::Funcs => 0,
        Space::Tables => 1,
        Space::Mems => 2,
        Space::Globals => 3,
        Space::Types => 4,
        Space::Elems => 5,
        Space::Datas => 6,
    }
}

#[derive(Clone, Copy)]
pub enum Index {
    Absent,
    Number(u32),
    Named(Part),
}

// ## Types

#[derive(Clone, Copy)]
pub struct Limits {
    pub is64: bool,
    pub minimum: u64,
    pub maximum: Option<u64>,
}

#[derive(Clone, Copy)]
pub struct TableType {
    pub element: u8,
    pub limits: Limits,
}

#[derive(Clone, Copy)]
pub struct GlobalType {
    pub value: u8,
    pub mutable: u8,
}

// A parameter or a local.
#[derive(Clone, Copy)]
pub struct Local {
    pub id: Part,
    pub value: u8,
}

#[derive(Clone, Copy)]
pub struct TypeUse {
    pub index: Index,
    pub params: List,
    pub results: List,
}

// ## Instructions

// What stands after an opcode, by the standard's names.
#[derive(Clone, Copy)]
pub enum Operands {
    Bare,
    LabelIdx,
    LabelIdxs,
    LocalIdx,
    FuncIdx,
    GlobalIdx,
    MemIdx,
    MemArg,
    I32,
    I64,
    F32,
    F64,
    HeapType,
    Bulk,
}

// The spaces of the indices after a second byte, in order.
#[derive(Clone, Copy)]
pub enum Spaces {
    None,
    One(Space),
    Two(Space, Space),
}

// By the byte after FC: memory.init, data.drop, memory.copy (destination and source), memory.fill.
pub fn bulk_spaces(b: u8) -> Spaces
    ensures { Instructions.spaces_of b ≡ spaces_is result }
{
    if b == 0x08 {
        return Spaces::Two(Space::Datas, Space::Mems);
    }
    if b == 0x09 {
        return Spaces::One(Space::Datas);
    }
    if b == 0x0A {
        return Spaces::Two(Space::Mems, Space::Mems);
    }
    if b == 0x0B {
        return Spaces::One(Space::Mems);
    }
    Spaces::None
}

// What stands after an opcode.
#[derive(Clone, Copy)]
pub enum Form {
    NoOpcode,
    Opening,
    Elsing,
    Ending,
    Calling,
    Operands(Operands),
}

#[derive(Clone, Copy)]
pub enum Operand {
    Nothing,
    Label(Index),
    Labels(List, Index),
    Local(Index),
    Item(Space, Index),
    // after FC: the second byte, and where its first index stands
    Items(u8, usize),
    // the alignment's exponent, the offset, the memory
    Access(u8, u32, Index),
    Int32(u32),
    Int64(u64),
    Raw(Part),
    Heap(u8),
}

#[derive(Clone, Copy)]
pub struct Plain {
    pub opcode: u8,
    pub operand: Operand,
}

#[derive(Clone, Copy)]
pub enum Instr {
    // block, loop or if, by its opcode; its label and its type
    Opens(u8, Part, TypeUse),
    Elses(Part),
    Ends(Part),
    // call_indirect: its table and its type
    Indirect(Index, TypeUse),
    Plain(Plain),
}

// What stands in a body that was read before.
#[derive(Clone, Copy)]
pub enum BodyRec {
    // an instruction, and the place after it
    Instr(Instr, usize),
    // the byte F0, with which a folded record begins
    Folded,
    // the byte FF, and the place after it
    End(usize),
}

// A folded record by its places: its operator's opcode and form, where what stands after the opcode is, the count of its operands,
// and where they begin.
#[derive(Clone, Copy)]
pub struct Folding {
    pub opcode: u8,
    pub form: Form,
    pub at: usize,
    pub count: u32,
    pub next: usize,
}

// ## Items and fields

// The two names of an import.
#[derive(Clone, Copy)]
pub struct ImportName {
    pub module: Part,
    pub item: Part,
}

// What may be imported: an item of one of four spaces.
#[derive(Clone, Copy)]
pub enum Kind {
    Func,
    Table,
    Mem,
    Global,
}

#[derive(Clone, Copy)]
pub enum Extern {
    Func(TypeUse),
    Table(TableType),
    Mem(Limits),
    Global(GlobalType),
}

#[derive(Clone, Copy)]
pub enum Own {
    Func(TypeUse, List),
    Table(TableType),
    Mem(Limits),
    // its type, and where its value stands
    Global(GlobalType, usize),
}

// A bool says 64-bit.
#[derive(Clone, Copy)]
pub enum Source {
    Own(Own),
    Imported(ImportName, Extern),
    TableOf(bool, List),
    MemOf(bool, Part),
}

#[derive(Clone, Copy)]
pub enum Mode {
    Passive,
    // the table or the memory, and where the offset stands
    Active(Index, usize),
}

#[derive(Clone, Copy)]
pub enum Field {
    Type {
        id: Part,
        params: List,
        results: List,
    },
    Import {
        name: ImportName,
        id: Part,
        what: Extern,
    },
    Item {
        id: Part,
        exports: List,
        source: Source,
    },
    Export {
        name: Part,
        space: Space,
        index: Index,
    },
    Start(Index),
    Elem {
        id: Part,
        mode: Mode,
        funcs: List,
    },
    Data {
        id: Part,
        mode: Mode,
        bytes: Part,
    },
}

// ## Where reading stands

// The running place: a byte, the number of its record, and how deep it stands: 0 outside a body, in one the number of open blocks and one more.
#[derive(Clone, Copy)]
pub struct Place {
    pub at: usize,
    pub rec: u32,
    pub depth: u32,
}

// Of each open block whether an else may still come in it: one bit each, that of the innermost block the lowest of `low`.
#[derive(Clone, Copy)]
pub struct Marks {
    pub low: u64,
    pub high: u64,
}

impl Marks {
    pub fn none() -> Marks
        ensures { result ≡ no_marks }
    {
        Marks { low: 0, high: 0 }
    }
}

// How many items each space has, by its code, and whether there was a start.
#[derive(Clone, Copy)]
pub struct Seen {
    pub counts: [u32; 7],
    pub started: bool,
}

impl Seen {
    pub fn none() -> Seen
        ensures { result ≡ none_seen }
    {
        Seen {
            counts: [0; 7],
            started: false,
        }
    }
}

// ## What is resolved

#[derive(Clone, Copy)]
pub struct LocalNo(pub u32);

#[derive(Clone, Copy)]
pub struct TypeNo(pub u32);

#[derive(Clone, Copy)]
pub struct Depth(pub u32);

#[derive(Clone, Copy)]
pub enum BlockType {
    Empty,
    Single(u8),
    Typed(TypeNo),
}

// Entries of one section; the types of section 1 are not among them, since the table of types has them. The inline forms have the number of
// their item.
#[derive(Clone, Copy)]
pub enum Entry {
    Nothing,
    Import(ImportName, Extern),
    Func(TypeUse),
    Table(TableType),
    InlineTable(bool, List),
    Mem(Limits),
    InlineMem(bool, Part),
    Global(GlobalType, usize),
    Export(Part, Space, Index),
    Exports(List, Space, u32),
    Start(Index),
    Elem(Mode, List),
    InlineElem(bool, u32, List),
    // a function's type use and locals, and where its body begins
    Code(TypeUse, List, usize),
    Data(Mode, Part),
    InlineData(bool, u32, Part),
}

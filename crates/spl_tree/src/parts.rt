//! The parts of a tree: its kinds of nodes, and the lists that hold them.

/// The number of an expression in the tree's list of expressions.
#[derive(Clone, Copy, Debug, Drop, PartialEq, Eq)]
pub struct ExprId(pub u32);

/// The number of a statement in the tree's list of statements.
#[derive(Clone, Copy, Debug, Drop, PartialEq, Eq)]
pub struct StmtId(pub u32);

/// The number of a name in the tree's list of names. Two numbers may stand for the same bytes.
#[derive(Clone, Copy, Debug, Drop, PartialEq, Eq)]
pub struct NameId(pub u32);

/// An operator with two operands: disjunction, conjunction, the comparisons, and the arithmetic ones.
#[derive(Clone, Copy, Debug, Drop, PartialEq, Eq)]
pub enum BinOp {
    Or,
    And,
    Eq,
    Ne,
    Lt,
    Le,
    Gt,
    Ge,
    Add,
    Sub,
    Mul,
    Div,
    Rem,
}

/// An expression over expressions with lower numbers.
#[derive(Clone, Copy, Debug, Drop, PartialEq, Eq)]
pub enum Expr {
    Number(u64),
    Variable(NameId),
    True,
    False,
    Random,
    Neg(ExprId),
    Not(ExprId),
    Binary(BinOp, ExprId, ExprId),
}

/// A statement over statements with lower numbers. In a call the targets come first, then the called name, then
/// the arguments. A conditional without `else` has no second block.
#[derive(Clone, Copy, Debug, Drop, PartialEq, Eq)]
pub enum Stmt {
    Skip,
    Halt,
    Fail,
    Assume(ExprId),
    Assign(NameId, ExprId),
    Call(NameList, NameId, NameList),
    If(ExprId, Block, Option<Block>),
    While(ExprId, Block),
}

/// A span of the tree's list of names in statements: the names of a call's targets or arguments, in order.
#[derive(Clone, Copy, Debug, Drop, PartialEq, Eq)]
pub struct NameList {
    pub first: u32,
    pub count: u32,
}

/// A span of the tree's list of statements in blocks: the statements of a block, in order.
#[derive(Clone, Copy, Debug, Drop, PartialEq, Eq)]
pub struct Block {
    pub first: u32,
    pub count: u32,
}

/// A span of the tree's letters: the bytes of a name.
#[derive(Clone, Copy, Debug, Drop, PartialEq, Eq)]
pub struct NameSpan {
    pub first: u32,
    pub count: u32,
}

/// The type in a declaration, as it is written.
#[derive(Clone, Copy, Debug, Drop, PartialEq, Eq)]
pub enum DeclKind {
    Int,
    Real,
    Named(NameId),
}

/// A declaration of a variable.
#[derive(Clone, Copy, Debug, Drop, PartialEq, Eq)]
pub struct Decl {
    pub name: NameId,
    pub kind: DeclKind,
}

/// A span of the tree's list of declarations.
#[derive(Clone, Copy, Debug, Drop, PartialEq, Eq)]
pub struct DeclList {
    pub first: u32,
    pub count: u32,
}

/// A procedure other than main.
#[derive(Clone, Copy, Debug, Drop, PartialEq, Eq)]
pub struct ProcTree {
    pub name: NameId,
    pub inputs: DeclList,
    pub outputs: DeclList,
    pub locals: DeclList,
    pub body: Block,
}

/// The program's own variables and its body.
#[derive(Clone, Copy, Debug, Drop, PartialEq, Eq)]
pub struct MainTree {
    pub locals: DeclList,
    pub body: Block,
}

/// Where a declaration's name and its type start.
#[derive(Clone, Copy, Debug, Drop, PartialEq, Eq)]
pub struct DeclAt {
    pub name: usize,
    pub kind: usize,
}

/// Where a procedure's name and its word `begin` start.
#[derive(Clone, Copy, Debug, Drop, PartialEq, Eq)]
pub struct ProcAt {
    pub name: usize,
    pub begin: usize,
}

/// The places of a statement: where its first token starts; where the called name starts; just past `then` or `do`;
/// just past `else`; and the place of the point after it, which is just past its `;`, or past `endif` or `done`
/// where no `;` follows. A place that the statement lacks is its start.
#[derive(Clone, Copy, Debug, Drop, PartialEq, Eq)]
pub struct StmtAt {
    pub start: usize,
    pub called: usize,
    pub first_block: usize,
    pub second_block: usize,
    pub end: usize,
}

/// The lists of a tree, of which `Tree::from_parts` says what they have to keep. A list of places is as long as the
/// list before it.
#[derive(Drop)]
pub struct TreeParts {
    pub letters: Vec<u8>,
    pub names: Vec<NameSpan>,
    pub decls: Vec<Decl>,
    pub decl_places: Vec<DeclAt>,
    pub procs: Vec<ProcTree>,
    pub proc_places: Vec<ProcAt>,
    pub exprs: Vec<Expr>,
    pub expr_places: Vec<usize>,
    pub stmts: Vec<Stmt>,
    pub stmt_places: Vec<StmtAt>,
    pub name_items: Vec<NameId>,
    pub name_item_places: Vec<usize>,
    pub stmt_items: Vec<StmtId>,
    pub main: MainTree,
    pub main_begin: usize,
}

//! Programs as trees: nodes in lists that name each other by number, and the offset of each in the source.
//!
//! A tree is made from its parts and is read by number. Its type keeps that every number is in range, that
//! children come before their parents, that no literal passes 2^61, and that lists and places stay within 2^20.
//! What the numbers stand for, the nested program, is a definition of its own (`specs/Meaning.antt`), so how
//! nodes are numbered makes no difference above this crate.
#![tactic(auto)]

mod laws;
mod parts;
mod tree;

pub use laws::law_numbers;
pub use parts::{
    BinOp, Block, Decl, DeclAt, DeclKind, DeclList, Expr, ExprId, MainTree, NameId, NameList,
    NameSpan, ProcAt, ProcTree, Stmt, StmtAt, StmtId, TreeParts,
};
pub use tree::Tree;

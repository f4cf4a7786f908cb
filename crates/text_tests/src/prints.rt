//! Programs whose canonical texts were worked out by hand.

ghost use Rattle.std.specs.Prelude.{◌≡◌, IfOk};
ghost use Rattle.spl_tree.specs.Facts.{IsPlace, StmtIsPlaced};
ghost use Rattle.spl_tree.specs.Meaning.{program_of};
ghost use Rattle.spl_print.specs.Canonical.{point_lines, program_lines};

use crate::texts::tree_in;
use spl_parser::parse;
use spl_print::{NoMemory, Notes, print, print_tree};
use spl_text::tokens;
use spl_tree::{Block, DeclList, MainTree, Stmt, StmtAt, StmtId, Tree, TreeParts};
use spl_types::check;
use std::alloc::Global;
use std::process::Abort;
use std::test::Fail;

/// What is noted of the points of a program, one letter each.
const LETTERS: &[u8] = b"abcdefghijklmnopqrstuvwxyz";

/// Programs and their canonical texts, before the closing lines.
const PROGRAMS: [(&str, &str); 8] = [
    ("begin end", "begin\n  /* (L1 C6) a */\nend\n"),
    (
        "var x : int , y:real,z : other ;\nbegin x=007; end",
        "var x:int, y:real, z:other;\nbegin\n  /* (L2 C6) a */\n  x = 7;\n  /* (L2 C13) b */\nend\n",
    ),
    (
        "proc f(a:int,b:int)returns(r:int)var t:int,u:int;begin r=a;end\nproc g()returns()begin end\nbegin end",
        "proc f(a:int, b:int) returns (r:int)\nvar t:int, u:int;\nbegin\n  /* (L1 C55) a */\n  r = a;\n  /* (L1 C60) b */\nend\nproc g() returns ()\nbegin\n  /* (L2 C23) c */\nend\nbegin\n  /* (L3 C6) d */\nend\n",
    ),
    (
        "begin skip;halt;fail;\nassume true;x=false;\ny=random;z=brandom;end",
        "begin\n  /* (L1 C6) a */\n  skip;\n  /* (L1 C12) b */\n  halt;\n  /* (L1 C17) c */\n  fail;\n  /* (L1 C22) d */\n  assume true;\n  /* (L2 C13) e */\n  x = false;\n  /* (L2 C21) f */\n  y = random;\n  /* (L3 C10) g */\n  z = random;\n  /* (L3 C20) h */\nend\n",
    ),
    (
        "begin x=P(a,b);( x )=P(a);(x,y)=P();()=P(a,b,c);end",
        "begin\n  /* (L1 C6) a */\n  x = P(a, b);\n  /* (L1 C16) b */\n  x = P(a);\n  /* (L1 C27) c */\n  (x, y) = P();\n  /* (L1 C37) d */\n  () = P(a, b, c);\n  /* (L1 C49) e */\nend\n",
    ),
    (
        "begin\nif a<b then skip; else while not c do done endif\nif a then else endif;\nend",
        "begin\n  /* (L1 C6) a */\n  if a < b then\n    /* (L2 C12) b */\n    skip;\n    /* (L2 C18) c */\n  else\n    /* (L2 C23) d */\n    while not c do\n      /* (L2 C38) e */\n    done;\n    /* (L2 C43) f */\n  endif;\n  /* (L2 C49) g */\n  if a then\n    /* (L3 C10) h */\n  else\n    /* (L3 C15) i */\n  endif;\n  /* (L3 C22) j */\nend\n",
    ),
    (
        "begin while true do if b then x=1; endif done;end",
        "begin\n  /* (L1 C6) a */\n  while true do\n    /* (L1 C20) b */\n    if b then\n      /* (L1 C30) c */\n      x = 1;\n      /* (L1 C35) d */\n    endif;\n    /* (L1 C41) e */\n  done;\n  /* (L1 C47) f */\nend\n",
    ),
    (
        "begin if a then endif // still open\n ; end",
        "begin\n  /* (L1 C6) a */\n  if a then\n    /* (L1 C16) b */\n  endif;\n  /* (L2 C3) c */\nend\n",
    ),
];

/// Expressions and their canonical texts.
const EXPRESSIONS: [(&str, &str); 56] = [
    ("a", "a"),
    ("(((a)))", "a"),
    ("0", "0"),
    ("0001", "1"),
    ("2305843009213693952", "2305843009213693952"),
    ("true", "true"),
    ("false", "false"),
    ("random", "random"),
    ("brandom", "random"),
    ("a-b-c", "a - b - c"),
    ("(a-b)-c", "a - b - c"),
    ("a-(b-c)", "a - (b - c)"),
    ("a+(b-c)", "a + (b - c)"),
    ("a+b*c", "a + b * c"),
    ("(a+b)*c", "(a + b) * c"),
    ("a*(b+c)", "a * (b + c)"),
    ("a*b/c%d", "a * b / c % d"),
    ("a*(b*c)", "a * (b * c)"),
    ("a/(b%c)", "a / (b % c)"),
    ("-a", "-a"),
    ("- -a", "--a"),
    ("-(-a)", "--a"),
    ("-(a+b)", "-(a + b)"),
    ("-(a*b)", "-(a * b)"),
    ("-a*b", "-a * b"),
    ("a*-b", "a * -b"),
    ("a--b", "a - -b"),
    ("-random", "-random"),
    ("-(not a)", "-(not a)"),
    ("(not a)+b", "(not a) + b"),
    ("a*(not b)", "a * (not b)"),
    ("a==b", "a == b"),
    ("a!=b", "a != b"),
    ("a<b", "a < b"),
    ("a<=b", "a <= b"),
    ("a>b", "a > b"),
    ("a>=b", "a >= b"),
    ("a==(b==c)", "a == (b == c)"),
    ("(a<b)<c", "(a < b) < c"),
    ("(a==b)+1", "(a == b) + 1"),
    ("a+1==b-1", "a + 1 == b - 1"),
    ("(not a)==b", "(not a) == b"),
    ("not a==b", "not a == b"),
    ("not a", "not a"),
    ("not not a", "not not a"),
    ("not(a and b)", "not (a and b)"),
    ("not a and b", "not a and b"),
    ("not(a or b)", "not (a or b)"),
    ("a and not b", "a and not b"),
    ("a and b and c", "a and b and c"),
    ("a and(b and c)", "a and (b and c)"),
    ("a or b or c", "a or b or c"),
    ("a or(b or c)", "a or (b or c)"),
    ("a or b and c", "a or b and c"),
    ("(a or b)and c", "(a or b) and c"),
    ("(a and b)or not c<d", "a and b or not c < d"),
];

/// The closing lines.
const CLOSING: &str = "/* fail (L1 C7): unreachable */\n/* rounds: 2 */\n";

/// The letters for points, and the texts of the closing lines.
fn lettered(alloc: Global) -> Result<Notes, NoMemory> {
    let mut notes = Notes::new(alloc);
    for letter in LETTERS {
        notes.point(&[*letter])?;
    }
    notes.closing(b"fail (L1 C7): unreachable")?;
    notes.closing(b"rounds: 2")?;
    Ok(notes)
}

/// Ends the test where the canonical text of a program isn't this one with the closing lines.
fn expect_text(rt: &impl Abort, alloc: Global, text: &[u8], want: &str) -> Result<(), Fail> {
    let tree = tree_in(alloc, text)?;
    let notes = lettered(alloc)?;
    let given = print_tree(alloc, text, &tree, &notes)?;
    let whole = format!(in alloc; "{want}{CLOSING}")?;
    assert_eq!(rt; given.as_slice(), whole.as_bytes());
    Ok(())
}

#[test]
fn programs(rt: HostRuntime) -> Result<(), Fail> {
    for &(text, want) in &PROGRAMS {
        expect_text(&rt, rt.alloc(), text.as_bytes(), want)?;
    }
    Ok(())
}

#[test]
fn expressions(rt: HostRuntime) -> Result<(), Fail> {
    for &(text, printed) in &EXPRESSIONS {
        let source = format!(in rt.alloc(); "begin assume {text};end")?;
        let want = format!(in rt.alloc();
            "begin\n  /* (L1 C6) a */\n  assume {printed};\n  /* (L1 C{}) b */\nend\n",
            source.len() - 2
        )?;
        expect_text(&rt, rt.alloc(), source.as_bytes(), want.as_str())?;
    }
    Ok(())
}

#[test]
fn long_chains(rt: HostRuntime) -> Result<(), Fail> {
    for &(piece, column) in &[("not ", "4011"), ("-", "1011")] {
        let mut chain = String::new(rt.alloc());
        for _ in 0..1000 {
            chain.push_str(piece)?;
        }
        let source = format!(in rt.alloc(); "begin x={chain}y;end")?;
        let want = format!(in rt.alloc();
            "begin\n  /* (L1 C6) a */\n  x = {chain}y;\n  /* (L1 C{column}) b */\nend\n"
        )?;
        expect_text(&rt, rt.alloc(), source.as_bytes(), want.as_str())?;
    }
    Ok(())
}

/// The tree of `begin end`, which has one point.
fn bare_tree(alloc: Global) -> Result<Tree, Fail>
    ensures { IfOk result (λ tree. point_lines (program_lines (program_of tree)) ≡ 1) }
{
    let text = b"begin end";
    let list = tokens(alloc, text)?;
    let tree = parse(alloc, text, &list)?;
    Ok(tree)
}

#[test]
fn checked_program(rt: HostRuntime) -> Result<(), Fail> {
    let tree = bare_tree(rt.alloc())?;
    let mut notes = Notes::new(rt.alloc());
    notes.point(b"top")?;
    notes.closing(b"rounds: 2")?;
    let checked = check(rt.alloc(), &tree)?;
    let given = print(rt.alloc(), b"begin end", &checked, &notes)?;
    let want = b"begin\n  /* (L1 C6) top */\nend\n/* rounds: 2 */\n";
    assert_eq!(&rt; given.as_slice(), want.as_slice());
    Ok(())
}

/// The place of a statement that ends at this offset.
fn ending(end: usize) -> StmtAt
    requires { IsPlace end }
    ensures { StmtIsPlaced result }
{
    StmtAt {
        start: 0,
        called: 0,
        first_block: 0,
        second_block: 0,
        end,
    }
}

/// A tree that no text has: its statements end at offsets that don't rise.
fn falling_tree(alloc: Global) -> Result<Tree, Fail> {
    let stmts = vec![in alloc;
        Stmt::Skip,
        Stmt::Skip,
        Stmt::Skip,
        Stmt::Skip,
        Stmt::Skip,
        Stmt::Skip,
        Stmt::Skip,
    ]?;
    let stmt_places = vec![in alloc;
        ending(4),
        ending(7),
        ending(2),
        ending(3),
        ending(3),
        ending(99),
        ending(0),
    ]?;
    let stmt_items = vec![in alloc;
        StmtId(0),
        StmtId(1),
        StmtId(2),
        StmtId(3),
        StmtId(4),
        StmtId(5),
        StmtId(6),
    ]?;
    Ok(Tree::from_parts(TreeParts {
        letters: Vec::new(alloc),
        names: Vec::new(alloc),
        decls: Vec::new(alloc),
        decl_places: Vec::new(alloc),
        procs: Vec::new(alloc),
        proc_places: Vec::new(alloc),
        exprs: Vec::new(alloc),
        expr_places: Vec::new(alloc),
        stmts,
        stmt_places,
        name_items: Vec::new(alloc),
        name_item_places: Vec::new(alloc),
        stmt_items,
        main: MainTree {
            locals: DeclList { first: 0, count: 0 },
            body: Block { first: 0, count: 7 },
        },
        main_begin: 0,
    }))
}

#[test]
fn places_in_any_order(rt: HostRuntime) -> Result<(), Fail> {
    let tree = falling_tree(rt.alloc())?;
    let notes = lettered(rt.alloc())?;
    let given = print_tree(rt.alloc(), b"ab\ncd\n\ne", &tree, &notes)?;
    let want =
        "begin\n  /* (L2 C3) a */\n  skip;\n  /* (L2 C2) b */\n  skip;\n  /* (L4 C1) c */\n  skip;\n  /* (L1 C3) d */\n  skip;\n  /* (L2 C1) e */\n  skip;\n  /* (L2 C1) f */\n  skip;\n  /* (L4 C2) g */\n  skip;\n  /* (L1 C1) h */\nend\n";
    let whole = format!(in rt.alloc(); "{want}{CLOSING}")?;
    assert_eq!(&rt; given.as_slice(), whole.as_bytes());
    Ok(())
}

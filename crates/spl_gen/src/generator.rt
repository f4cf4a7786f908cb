//! The text of a generated program.
ghost use Rattle.std.specs.Prelude.{◌≡◌, ◌++◌, List, ℕ, codes, IfOk, OnOk};
ghost use Rattle.spl_gen.specs.Generated.{chain, declaration, declarations, each, generated, separator, steps, successor, variable};

use itoa::Buffer;
use memory::NoMemory;
use std::alloc::{AllocError, Global};

/// The program with this many groups of three variables: a chain of assignments, and a loop that steps each variable.
pub fn generate(alloc: Global, n: u32) -> Result<Vec<u8>, NoMemory>
    ensures { IfOk result (λ text. text.items ≡ generated n) }
{
    let mut out = Vec::new(alloc);
    out.extend_from_slice(b"var ")?;
    put_all_declarations(&mut out, n)?;
    out.extend_from_slice(b";\nbegin\n")?;
    put_all_chains(&mut out, n)?;
    out.extend_from_slice(b"while random do\n")?;
    put_all_steps(&mut out, n)?;
    out.extend_from_slice(b"done;\nend\n")?;
    Ok(out)
}

/// Appends the declarations of all groups.
fn put_all_declarations(out: &mut Vec<u8>, n: u32) -> Result<(), AllocError>
    ensures { OnOk result (out.new.items ≡ out.old.items ++ each declarations n) }
{
    for k in 0..n {
        put_declarations(out, k)?;
    }
    Ok(())
}

/// Appends the chains of all groups.
fn put_all_chains(out: &mut Vec<u8>, n: u32) -> Result<(), AllocError>
    ensures { OnOk result (out.new.items ≡ out.old.items ++ each chain n) }
{
    for k in 0..n {
        put_chain(out, k)?;
    }
    Ok(())
}

/// Appends the steps of all groups.
fn put_all_steps(out: &mut Vec<u8>, n: u32) -> Result<(), AllocError>
    ensures { OnOk result (out.new.items ≡ out.old.items ++ each steps n) }
{
    for k in 0..n {
        put_steps(out, k)?;
    }
    Ok(())
}

/// Appends the declarations of a group, after a comma where a group stands before it.
fn put_declarations(out: &mut Vec<u8>, k: u32) -> Result<(), AllocError>
    ensures { OnOk result (out.new.items ≡ out.old.items ++ declarations k) }
{
    put_separator(out, k)?;
    put_declaration(out, b"a", k)?;
    out.extend_from_slice(b", ")?;
    put_declaration(out, b"b", k)?;
    out.extend_from_slice(b", ")?;
    put_declaration(out, b"c", k)
}

/// Appends the chain of a group.
fn put_chain(out: &mut Vec<u8>, k: u32) -> Result<(), AllocError>
    ensures { OnOk result (out.new.items ≡ out.old.items ++ chain k) }
{
    put_successor(out, b"b", b"a", k)?;
    put_successor(out, b"c", b"b", k)
}

/// Appends the steps of a group.
fn put_steps(out: &mut Vec<u8>, k: u32) -> Result<(), AllocError>
    ensures { OnOk result (out.new.items ≡ out.old.items ++ steps k) }
{
    put_successor(out, b"a", b"a", k)?;
    put_successor(out, b"b", b"b", k)?;
    put_successor(out, b"c", b"c", k)
}

/// Appends a comma, but for the first group.
fn put_separator(out: &mut Vec<u8>, k: u32) -> Result<(), AllocError>
    ensures { OnOk result (out.new.items ≡ out.old.items ++ separator k) }
{
    if k == 0 {
        return Ok(());
    }
    out.extend_from_slice(b", ")
}

/// Appends the declaration of one variable.
fn put_declaration(out: &mut Vec<u8>, letter: &[u8], k: u32) -> Result<(), AllocError>
    ensures { OnOk result (out.new.items ≡ out.old.items ++ declaration letter.now k) }
{
    put_variable(out, letter, k)?;
    out.extend_from_slice(b":int")
}

/// Appends the line that sets a variable of a group to another one and one.
fn put_successor(out: &mut Vec<u8>, target: &[u8], origin: &[u8], k: u32) -> Result<(), AllocError>
    ensures { OnOk result (out.new.items ≡ out.old.items ++ successor target.now origin.now k) }
{
    put_variable(out, target, k)?;
    out.extend_from_slice(b" = ")?;
    put_variable(out, origin, k)?;
    out.extend_from_slice(b" + 1;\n")
}

/// Appends a variable of a group.
fn put_variable(out: &mut Vec<u8>, letter: &[u8], k: u32) -> Result<(), AllocError>
    ensures { OnOk result (out.new.items ≡ out.old.items ++ variable letter.now k) }
{
    let mut digits = Buffer::new();
    out.extend_from_slice(letter)?;
    out.extend_from_slice(digits.format(k).as_bytes())
}

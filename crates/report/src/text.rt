//! The texts of what is said at points, each appended to the text so far.
ghost use Rattle.std.specs.Prelude.{◌≡◌, ◌++◌, ◌<◌, length, decimal, Some, OnOk, IfOk};
ghost use Rattle.std.specs.List.{flat_map};
ghost use Rattle.report.specs.ConstraintText.{constraint_text, next_constraint_text, constant_text, constraints_text, note_text, name_of, second_text, relation_text};
ghost use Rattle.report.specs.Listed.{note_of};
ghost use Rattle.report.specs.Names.{note_now, IsNamed, AllNamed, AreNamed};

use crate::constraint::{Constraint, Relation, Term};
use crate::laws::law_plain_notes;
use crate::listing::note_of;
use domain::Domain;
use itoa::Buffer;
use memory::NoMemory;
use spl_types::Names;
use std::alloc::{AllocError, Global};

/// The text of a value: `bottom`, `top`, or its constraints over these names, with or without the implied ones.
pub fn constraints_text<D: Domain>(
    alloc: Global,
    dom: &D,
    v: &D::V,
    names: &Names,
    full: bool,
) -> Result<Vec<u8>, NoMemory>
    requires named { length names.now ≡ (D.meaning v.now).dims }
    ensures { IfOk result (λ text. text.items ≡ note_text names.now (note_of full (D.meaning v.now))) }
{
    dom.known(v);
    law_plain_notes();
    let note = note_of(alloc, dom, v, names.len(), full)?;
    let text = text_of(alloc, names, &note)?;
    Ok(text)
}

/// The text of what is said at a point.
fn text_of(
    alloc: Global,
    names: &Names,
    note: &Option<Vec<Constraint>>,
) -> Result<Vec<u8>, AllocError>
    requires named { AreNamed (length names.now) (note_now note.now) }
    ensures { IfOk result (λ text. text.items ≡ note_text names.now (note_now note.now)) }
{
    let mut out = Vec::new(alloc);
    match note {
        None => out.extend_from_slice(b"bottom")?,
        Some(constraints) => put_constraints(&mut out, names, constraints)?,
    }
    Ok(out)
}

/// Appends a number in decimal.
pub fn put_number(out: &mut Vec<u8>, number: u64) -> Result<(), AllocError>
    ensures { OnOk result (out.new.items ≡ out.old.items ++ decimal number) }
{
    let mut digits = Buffer::new();
    out.extend_from_slice(digits.format(number).as_bytes())
}

/// Appends the name of a variable.
fn put_name(out: &mut Vec<u8>, names: &Names, variable: u32) -> Result<(), AllocError>
    requires { variable < length names.now }
    ensures { OnOk result (out.new.items ≡ out.old.items ++ name_of names.now variable) }
{
    out.extend_from_slice(names.name(variable))
}

/// Appends the constraints of a point, `top` where there are none.
fn put_constraints(
    out: &mut Vec<u8>,
    names: &Names,
    constraints: &[Constraint],
) -> Result<(), AllocError>
    requires { AllNamed (length names.now) constraints.now }
    ensures { OnOk result (out.new.items ≡ out.old.items ++ constraints_text names.now constraints.now) }
{
    let Some((first, others)) = constraints.split_first() else {
        return out.extend_from_slice(b"top");
    };
    out.extend_from_slice(b"[|")?;
    put_constraint(out, names, *first)?;
    put_next_constraints(out, names, others)?;
    out.extend_from_slice(b"|]")?;
    Ok(())
}

/// Appends later constraints, each behind its semicolon.
fn put_next_constraints(
    out: &mut Vec<u8>,
    names: &Names,
    constraints: &[Constraint],
) -> Result<(), AllocError>
    requires { AllNamed (length names.now) constraints.now }
    ensures { OnOk result (out.new.items ≡ out.old.items ++ flat_map (next_constraint_text names.now) constraints.now) }
{
    for constraint in constraints {
        out.extend_from_slice(b"; ")?;
        put_constraint(out, names, *constraint)?;
    }
    Ok(())
}

/// Appends a constraint, as `-x+y-1=0`.
fn put_constraint(
    out: &mut Vec<u8>,
    names: &Names,
    constraint: Constraint,
) -> Result<(), AllocError>
    requires { IsNamed (length names.now) constraint }
    ensures { OnOk result (out.new.items ≡ out.old.items ++ constraint_text names.now constraint) }
{
    if constraint.first.negative {
        out.extend_from_slice(b"-")?;
    }
    put_name(out, names, constraint.first.variable)?;
    if let Some(second) = constraint.second {
        put_second(out, names, second)?;
    }
    put_constant(out, constraint.constant)?;
    put_relation(out, constraint.relation)
}

/// Appends the second term of a constraint with its sign.
fn put_second(out: &mut Vec<u8>, names: &Names, term: Term) -> Result<(), AllocError>
    requires { term.variable < length names.now }
    ensures { OnOk result (out.new.items ≡ out.old.items ++ second_text names.now (Some term)) }
{
    out.extend_from_slice(if term.negative { b"-" } else { b"+" })?;
    put_name(out, names, term.variable)
}

/// Appends a constant with its sign; 0 is left out.
fn put_constant(out: &mut Vec<u8>, constant: i64) -> Result<(), AllocError>
    ensures { OnOk result (out.new.items ≡ out.old.items ++ constant_text constant) }
{
    if constant == 0 {
        return Ok(());
    }
    out.extend_from_slice(if constant < 0 { b"-" } else { b"+" })?;
    put_number(out, constant.unsigned_abs())
}

fn put_relation(out: &mut Vec<u8>, relation: Relation) -> Result<(), AllocError>
    ensures { OnOk result (out.new.items ≡ out.old.items ++ relation_text relation) }
{
    out.extend_from_slice(match relation {
        Relation::AtLeastZero => b">=0",
        Relation::Zero => b"=0",
    })
}

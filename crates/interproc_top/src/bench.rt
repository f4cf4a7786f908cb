//! The analysis of a generated program, and its figures.
ghost use Rattle.std.specs.Prelude.{◌≡◌, ◌++◌, ◌+◌, ◌-◌, ◌*◌, ◌^◌, ◌≤◌, IfOk, OnOk, IfErr, length};
ghost use Rattle.spl_tree.specs.Meaning.{program_of};
ghost use Rattle.control_points.specs.CoreOf.{core_of as graph_in};
ghost use Rattle.spl_tree.specs.Program.{Program};
ghost use Rattle.interproc_top.specs.Accepted.{IsAccepted};
ghost use Rattle.interproc_top.specs.Bench.{AreFiguresOf, IsBenchWith, figure_line, figures_text};
ghost use Rattle.interproc_top.specs.Reported.{Refuses};

use crate::analysis::Options;
use crate::cause::Cause;
use crate::stages::{checked_of, tokens_of, tree_of};
use components::{components, greatest_size};
use control_points::core_of;
use dec_domain::DecDomain;
use generated_program::{law_generated_text_is_accepted, law_points_of_generated};
use iteration::{analyse, law_sizes};
use itoa::Buffer;
use memory::NoMemory;
use spl_gen::generate;
use spl_parser::law_one_tree;
use spl_text::law_one_cut_or_fault;
use spl_types::Checked;
use std::alloc::{AllocError, Global};

/// What is measured of an analysis: the blocks at main's exit, and the rows that were relaxed.
#[derive(Drop)]
pub struct Figures {
    pub variables: u32,
    pub points: u32,
    pub rounds: u64,
    pub blocks: u32,
    pub largest: u32,
    pub rows: u64,
}

/// The figures of the generated program with this number, a line for each. The last one is how many rows this call relaxed
/// by the domain's count, so none once the count stays at its last value.
pub fn bench_text(alloc: Global, number: u32, dom: &mut DecDomain) -> Result<Vec<u8>, NoMemory>
    requires least { 1 ≤ number }
    requires greatest { number ≤ 42 }
    ensures figures { IfOk result (λ text. IsBenchWith number (dom.new - dom.old) text.items) }
    ensures rises { dom.old ≤ dom.new }
{
    law_generated_text_is_accepted();
    law_points_of_generated();
    law_one_cut_or_fault();
    law_one_tree();
    let bytes = generate(alloc, number)?;
    let figures = match figures_by(alloc, number, &bytes, dom) {
        Ok(figures) => figures,
        Err(cause) => match cause {
            Cause::NoMemory => return Err(NoMemory),
            _ => unreachable!(),
        },
    };
    let text = figures_text(alloc, &figures)?;
    Ok(text)
}

/// The figures of a program by its bytes, which has the points of the generated program with this number.
fn figures_by(
    alloc: Global,
    number: u32,
    bytes: &[u8],
    dom: &mut DecDomain,
) -> Result<Figures, Cause>
    requires greatest { number ≤ 42 }
    requires short { length bytes.now ≤ 2 ^ 20 }
    requires points { (p : Program) → IsAccepted bytes.now p → length (graph_in p).owners ≡ 5 * number + 4 }
    ensures figures { IfOk result (λ figures. (p : Program) × IsAccepted bytes.now p × AreFiguresOf number (dom.new - dom.old) p figures) }
    ensures refused { IfErr result (Refuses bytes.now) }
    ensures rises { dom.old ≤ dom.new }
{
    let tokens = tokens_of(alloc, bytes)?;
    let tree = tree_of(alloc, bytes, &tokens)?;
    let checked = checked_of(alloc, bytes, &tree)?;
    let figures = figures_of(alloc, number, &checked, dom)?;
    Ok(figures)
}

/// The figures of an accepted program, which has the points of the generated program with this number.
fn figures_of(
    alloc: Global,
    number: u32,
    checked: &Checked,
    dom: &mut DecDomain,
) -> Result<Figures, NoMemory>
    requires greatest { number ≤ 42 }
    requires points { length (graph_in (program_of checked.now)).owners ≡ 5 * number + 4 }
    ensures figures { IfOk result (λ figures. AreFiguresOf number (dom.new - dom.old) (program_of checked.now) figures) }
    ensures rises { dom.old ≤ dom.new }
{
    law_sizes();
    let options = Options::usual();
    let built = core_of(alloc, checked)?;
    let main = built.core.proc_at(built.core.procs() - 1);
    let before = dom.rows();
    let solution = analyse(alloc, dom, &built.core, options.delay, options.descend)?;
    let last = solution.read(alloc, dom, main.exit)?;
    let blocks = components(alloc, dom, &last, main.dims)?;
    Ok(Figures {
        variables: 3 * number,
        points: built.core.points(),
        rounds: solution.rounds(),
        blocks: blocks.len(),
        largest: greatest_size(&blocks),
        rows: dom.rows() - before,
    })
}

/// A line for each figure.
fn figures_text(alloc: Global, figures: &Figures) -> Result<Vec<u8>, NoMemory>
    ensures { IfOk result (λ text. text.items ≡ figures_text figures.now) }
{
    let mut out = Vec::new(alloc);
    put_figure(&mut out, b"variables", u64::from(figures.variables))?;
    put_figure(&mut out, b"points", u64::from(figures.points))?;
    put_figure(&mut out, b"rounds", figures.rounds)?;
    put_figure(&mut out, b"blocks", u64::from(figures.blocks))?;
    put_figure(&mut out, b"largest", u64::from(figures.largest))?;
    put_figure(&mut out, b"rows", figures.rows)?;
    Ok(out)
}

/// Appends the line of a figure.
fn put_figure(out: &mut Vec<u8>, name: &[u8], figure: u64) -> Result<(), AllocError>
    ensures { OnOk result (out.new.items ≡ out.old.items ++ figure_line name.now figure) }
{
    out.extend_from_slice(name)?;
    out.extend_from_slice(b" ")?;
    let mut digits = Buffer::new();
    out.extend_from_slice(digits.format(figure).as_bytes())?;
    out.extend_from_slice(b"\n")
}

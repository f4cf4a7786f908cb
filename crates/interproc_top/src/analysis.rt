//! From an accepted program to its report: its core, the analysis, and the texts.
ghost use Rattle.std.specs.Prelude.{◌≡◌, ◌≤◌, ◌^◌, length, IfOk};
ghost use Rattle.spl_tree.specs.Meaning.{program_of};
ghost use Rattle.interproc_top.specs.Accepted.{IsAccepted};
ghost use Rattle.interproc_top.specs.Analysis.{usual};
ghost use Rattle.interproc_top.specs.Reported.{IsReportOf};

use crate::cause::Verdict;
use command_words::DomainName;
use control_points::{core_of, law_graphs};
use dec_domain::DecDomain;
use domain::Domain;
use full_oct::FullDomain;
use iteration::{analyse, law_sound};
use memory::NoMemory;
use report::{all_unreachable, law_listing, report_text};
use spl_types::Checked;
use std::alloc::Global;

/// What can be asked of an analysis and its report.
#[derive(Clone, Copy, Debug, Drop, PartialEq, Eq)]
pub struct Options {
    /// How often a cut point changes by join before it is widened.
    pub delay: u32,
    /// How many rounds narrow in the end.
    pub descend: u32,
    /// Whether implied constraints are listed, too.
    pub full: bool,
}

impl Options {
    /// Those that hold where none is asked for.
    pub fn usual() -> Options
        ensures { result ≡ usual }
    {
        Options {
            delay: 1,
            descend: 2,
            full: false,
        }
    }
}

/// A report, and what it says of the `fail`s.
#[derive(Drop)]
pub struct Report {
    pub text: Vec<u8>,
    pub verdict: Verdict,
}

/// The report on an accepted program that was read from these bytes. It is the same whichever domain it is made in.
pub fn analysed(
    alloc: Global,
    domain: DomainName,
    bytes: &[u8],
    checked: &Checked,
    options: Options,
) -> Result<Report, NoMemory>
    requires short { length bytes.now ≤ 2 ^ 20 }
    requires accepted { IsAccepted bytes.now (program_of checked.now) }
    requires delay { options.delay ≤ 1000 }
    requires descend { options.descend ≤ 1000 }
    ensures { IfOk result (λ report. IsReportOf options bytes.now report.text.items report.verdict) }
{
    match domain {
        DomainName::Decomposed => {
            let mut dom = DecDomain::new();
            analysed_in(alloc, &mut dom, bytes, checked, options)
        }
        DomainName::Full => {
            let mut dom = FullDomain::new();
            analysed_in(alloc, &mut dom, bytes, checked, options)
        }
    }
}

/// The report that is made in this domain.
fn analysed_in<D: Domain>(
    alloc: Global,
    dom: &mut D,
    bytes: &[u8],
    checked: &Checked,
    options: Options,
) -> Result<Report, NoMemory>
    requires short { length bytes.now ≤ 2 ^ 20 }
    requires accepted { IsAccepted bytes.now (program_of checked.now) }
    requires delay { options.delay ≤ 1000 }
    requires descend { options.descend ≤ 1000 }
    ensures { IfOk result (λ report. IsReportOf options bytes.now report.text.items report.verdict) }
{
    law_graphs();
    law_sound();
    law_listing();
    let _ = checked.tree();
    let built = core_of(alloc, checked)?;
    let solution = analyse(alloc, dom, &built.core, options.delay, options.descend)?;
    let text = report_text(alloc, bytes, checked, &built, dom, &solution, options.full)?;
    let verdict = if all_unreachable(alloc, checked, &built, dom, &solution)? {
        Verdict::AllUnreachable
    } else {
        Verdict::SomeNotExcluded
    };
    Ok(Report { text, verdict })
}

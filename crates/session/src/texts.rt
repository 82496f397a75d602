// An answer as the line that is printed.
ghost use Rattle.std.specs.Prelude.{◌≡◌, Some};
ghost use Rattle.session.specs.Texts.{kept_name, report_text, answer_text, denial_text};

use crate::answers::{Answer, Denial};
use packer::Extent;
use plan::Report;
use rules::placements::Placement;
use std::fmt;

// A report as it is printed.
#[derive(Clone, Copy)]
struct ReportLine(Report);

fn kept_name(kept: bool) -> &'static str
    ensures { result.now ≡ kept_name kept }
{
    if kept { "kept" } else { "broken" }
}

impl fmt::Display for ReportLine {
    ghost output = { λ l. Some (report_text l.0) };

    fn fmt<W: fmt::Write>(&self, f: &mut fmt::Formatter<W>) -> fmt::Result {
        let Report {
            size,
            children,
            letter,
            kept,
        } = self.0;
        let kept = kept_name(kept);
        write!(f, "block {} {} ", size.width, size.height)?;
        write!(f, "{} {} {letter} {kept}", children.left, children.right)
    }
}

impl fmt::Display for Answer {
    ghost output = { λ a. Some (answer_text a) };

    fn fmt<W: fmt::Write>(&self, f: &mut fmt::Formatter<W>) -> fmt::Result {
        match *self {
            Answer::Loaded(n) => write!(f, "loaded {n}"),
            Answer::Allowed => write!(f, "allowed"),
            Answer::Begun => write!(f, "begun"),
            Answer::BegunEmpty => write!(f, "begun empty"),
            Answer::Kept(n) => write!(f, "kept {n}"),
            Answer::Undone(n) => write!(f, "undone {n}"),
            Answer::Reported(report) => write!(f, "{}", ReportLine(report)),
            Answer::Skyline {
                columns,
                raises,
                left,
            } => write!(f, "skyline {columns} {raises} {left}"),
            Answer::Highest(h) => write!(f, "highest {h}"),
            Answer::Packed(Extent { width, height }) => write!(f, "packed {width} {height}"),
            Answer::At(i, place) => {
                let Placement {
                    x,
                    y,
                    width,
                    height,
                } = place;
                write!(f, "at {i} {x} {y} {width} {height}")
            }
        }
    }
}

impl fmt::Display for Denial {
    ghost output = { λ d. Some (denial_text d) };

    fn fmt<W: fmt::Write>(&self, f: &mut fmt::Formatter<W>) -> fmt::Result {
        match *self {
            Denial::Refused(refusal) => write!(f, "{refusal}"),
            Denial::NotAllowed => write!(f, "not allowed"),
        }
    }
}

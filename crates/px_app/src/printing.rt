//! The lines that are printed, and the texts that are saved.
//!
//! After a write or an append that failed nothing more is printed or saved, and the run goes on.
ghost use Rattle.std.specs.Prelude.{◌≡◌, ◌≤◌, ◌⊎◌, ◌++◌, ◌∷◌, ℕ, List, [], Option, Some, option_copied, IfOk, OnErr};
ghost use Rattle.px_outside.specs.Count.{Rose};
ghost use Rattle.px_core.specs.Answers.{files_meaning};
ghost use Rattle.px_view.specs.Line.{flow_line as line_of_flow};
ghost use Rattle.px_app.specs.Saved.{CameOfAppend, Puts, Saves, saves_to, saves_to_of};
ghost use Rattle.px_words.specs.Appends.{piece_at};

use crate::saving::Saving;
use px_message::Flow;
use px_outside::{FileError, Files, Sink, SinkError};
use px_text::NoMemory;
use px_view::flow_line;
use std::alloc::Global;

/// How printing and saving went so far.
#[derive(Clone, Copy, Debug, PartialEq, Eq)]
pub(crate) enum Printing {
    /// All was printed and saved.
    Whole,
    /// A write or an append failed; nothing is printed or saved from then on.
    Failed,
}

impl Printing {
    ghost use Rattle.px_app.specs.Printed.{Has};

    /// Prints the text, unless a write failed before. After `NoMemory` nothing of it is printed.
    pub(crate) fn print<S: Sink>(self, out: &mut S, text: &[u8]) -> Result<Printing, NoMemory>
        ensures prints { (start : Option (List ℕ)) (before : List ℕ) → Has self before start (S.written out.old) →
            IfOk result (λ now. Has now (before ++ text.now) start (S.written out.new)) }
        ensures failed { (first : ℕ) → first ≤ S.faults out.old → (self ≡ Printing.Failed → Rose first (S.faults out.old)) →
            IfOk result (λ now. now ≡ Printing.Failed → Rose first (S.faults out.new)) }
        ensures err { OnErr result (S.written out.new ≡ S.written out.old) }
        ensures still { self ≡ Printing.Failed → S.written out.new ≡ S.written out.old }
        ensures later { S.faults out.old ≤ S.faults out.new }
    {
        match self {
            Printing::Failed => Ok(Printing::Failed),
            Printing::Whole => match out.write(text) {
                Ok(()) => Ok(Printing::Whole),
                Err(SinkError::Failed) => Ok(Printing::Failed),
                Err(SinkError::NoMemory) => Err(NoMemory),
            },
        }
    }

    /// Prints the line of a flow.
    pub(crate) fn print_flow<S: Sink>(
        self,
        alloc: Global,
        out: &mut S,
        flow: &Flow,
    ) -> Result<Printing, NoMemory>
        ensures prints { (start : Option (List ℕ)) (before : List ℕ) → Has self before start (S.written out.old) →
            IfOk result (λ now. Has now (before ++ line_of_flow flow.now) start (S.written out.new)) }
        ensures failed { (first : ℕ) → first ≤ S.faults out.old → (self ≡ Printing.Failed → Rose first (S.faults out.old)) →
            IfOk result (λ now. now ≡ Printing.Failed → Rose first (S.faults out.new)) }
        ensures err { OnErr result (S.written out.new ≡ S.written out.old) }
        ensures later { S.faults out.old ≤ S.faults out.new }
    {
        let mut line = Vec::new(alloc);
        flow_line(alloc, flow, &mut line)?;
        self.print(out, &line)
    }

    /// Prints the line of each flow and then saves it where it is to be saved, in their order. After a write or an append that failed
    /// nothing more is printed or saved.
    pub(crate) fn put_flows<F: Files, S: Sink>(
        self,
        alloc: Global,
        saving: Option<&Saving>,
        files: &mut F,
        out: &mut S,
        flows: Vec<Flow>,
    ) -> Result<Printing, NoMemory>
        ensures puts { Puts (saves_to_of (option_copied saving.entry)) self flows.items result (files_meaning F.contents F.calls F.misses F.faults F.losses files.old) (files_meaning F.contents F.calls F.misses F.faults F.losses files.new) (S.written out.old) (S.written out.new) }
        ensures failed { (first lost : ℕ) → first ≤ S.faults out.old → lost ≤ F.losses files.old → (self ≡ Printing.Failed → Rose first (S.faults out.old) ⊎ Rose lost (F.losses files.old)) →
            IfOk result (λ now. now ≡ Printing.Failed → Rose first (S.faults out.new) ⊎ Rose lost (F.losses files.new)) }
        ensures later { S.faults out.old ≤ S.faults out.new }
        ensures later_losses { F.losses files.old ≤ F.losses files.new }
    {
        let mut printing = self;
        for flow in flows {
            printing = printing.put_flow(alloc, saving, files, out, flow)?;
        }
        Ok(printing)
    }

    // Prints the line of the flow and saves it, unless a write or an append failed before.
    fn put_flow<F: Files, S: Sink>(
        self,
        alloc: Global,
        saving: Option<&Saving>,
        files: &mut F,
        out: &mut S,
        flow: Flow,
    ) -> Result<Printing, NoMemory>
        ensures puts { Puts (saves_to_of (option_copied saving.entry)) self (flow ∷ []) result (files_meaning F.contents F.calls F.misses F.faults F.losses files.old) (files_meaning F.contents F.calls F.misses F.faults F.losses files.new) (S.written out.old) (S.written out.new) }
        ensures failed { (first lost : ℕ) → first ≤ S.faults out.old → lost ≤ F.losses files.old → (self ≡ Printing.Failed → Rose first (S.faults out.old) ⊎ Rose lost (F.losses files.old)) →
            IfOk result (λ now. now ≡ Printing.Failed → Rose first (S.faults out.new) ⊎ Rose lost (F.losses files.new)) }
        ensures later { S.faults out.old ≤ S.faults out.new }
        ensures later_losses { F.losses files.old ≤ F.losses files.new }
    {
        match self {
            Printing::Failed => {
                drop(flow);
                Ok(Printing::Failed)
            }
            Printing::Whole => put_next(alloc, saving, files, out, flow),
        }
    }
}

// Prints the line of the flow and saves it, where none failed before.
fn put_next<F: Files, S: Sink>(
    alloc: Global,
    saving: Option<&Saving>,
    files: &mut F,
    out: &mut S,
    flow: Flow,
) -> Result<Printing, NoMemory>
    ensures puts { Puts (saves_to_of (option_copied saving.entry)) Printing.Whole (flow ∷ []) result (files_meaning F.contents F.calls F.misses F.faults F.losses files.old) (files_meaning F.contents F.calls F.misses F.faults F.losses files.new) (S.written out.old) (S.written out.new) }
    ensures failed { (first lost : ℕ) → first ≤ S.faults out.old → lost ≤ F.losses files.old →
        IfOk result (λ now. now ≡ Printing.Failed → Rose first (S.faults out.new) ⊎ Rose lost (F.losses files.new)) }
    ensures later { S.faults out.old ≤ S.faults out.new }
    ensures later_losses { F.losses files.old ≤ F.losses files.new }
{
    match Printing::Whole.print_flow(alloc, out, &flow) {
        Ok(Printing::Whole) => save(alloc, saving, files, flow),
        Ok(Printing::Failed) => {
            drop(flow);
            Ok(Printing::Failed)
        }
        Err(NoMemory) => {
            drop(flow);
            Err(NoMemory)
        }
    }
}

// Saves the flow where it is to be saved.
fn save<F: Files>(
    alloc: Global,
    saving: Option<&Saving>,
    files: &mut F,
    flow: Flow,
) -> Result<Printing, NoMemory>
    ensures saves { Saves (saves_to_of (option_copied saving.entry)) flow result (files_meaning F.contents F.calls F.misses F.faults F.losses files.old) (files_meaning F.contents F.calls F.misses F.faults F.losses files.new) }
    ensures failed { (lost : ℕ) → lost ≤ F.losses files.old → IfOk result (λ now. now ≡ Printing.Failed → Rose lost (F.losses files.new)) }
    ensures later { F.losses files.old ≤ F.losses files.new }
{
    match saving {
        None => {
            drop(flow);
            Ok(Printing::Whole)
        }
        Some(saving) => save_at(alloc, saving, files, flow),
    }
}

// Saves the flow here.
fn save_at<F: Files>(
    alloc: Global,
    saving: &Saving,
    files: &mut F,
    flow: Flow,
) -> Result<Printing, NoMemory>
    ensures saves { Saves (Some (saves_to saving.now)) flow result (files_meaning F.contents F.calls F.misses F.faults F.losses files.old) (files_meaning F.contents F.calls F.misses F.faults F.losses files.new) }
    ensures failed { (lost : ℕ) → lost ≤ F.losses files.old → IfOk result (λ now. now ≡ Printing.Failed → Rose lost (F.losses files.new)) }
    ensures later { F.losses files.old ≤ F.losses files.new }
{
    match saving.text_of(alloc, flow) {
        Ok(Some(text)) => append(files, saving.path.as_str(), &text),
        Ok(None) => Ok(Printing::Whole),
        Err(NoMemory) => Err(NoMemory),
    }
}

// Puts the text at the end of the file of this path.
fn append<F: Files>(files: &mut F, path: &str, text: &[u8]) -> Result<Printing, NoMemory>
    ensures came { CameOfAppend result (piece_at path.now text.now) (files_meaning F.contents F.calls F.misses F.faults F.losses files.old) (files_meaning F.contents F.calls F.misses F.faults F.losses files.new) }
    ensures failed { (lost : ℕ) → lost ≤ F.losses files.old → IfOk result (λ now. now ≡ Printing.Failed → Rose lost (F.losses files.new)) }
    ensures later { F.losses files.old ≤ F.losses files.new }
{
    match files.append(path, text) {
        Ok(()) => Ok(Printing::Whole),
        Err(FileError::Failed) => Ok(Printing::Failed),
        Err(FileError::NoMemory) => Err(NoMemory),
        Err(FileError::Absent) => unreachable!(),
    }
}

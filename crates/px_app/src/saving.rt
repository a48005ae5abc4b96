//! Saving finished flows.
ghost use Rattle.std.specs.Prelude.{◌≡◌, Some, map, option_map, IfOk};
ghost use Rattle.px_filter.specs.View.{expression};
ghost use Rattle.px_app.specs.Saved.{is_taken, pieces_of, saves_to, texts_in, texts_of};
ghost use Rattle.px_words.specs.Appends.{piece_at};

use px_filter::Filter;
use px_flowfile::{Entry, Others, write_flow};
use px_message::Flow;
use px_options::FilePath;
use px_text::NoMemory;
use px_tnet::WriteError;
use std::alloc::Global;

/// Where finished flows are saved, and which.
#[derive(Debug, Drop)]
pub(crate) struct Saving {
    pub(crate) path: FilePath,
    pub(crate) filter: Option<Filter>,
}

impl Saving {
    /// The text that is put of a flow; none where the filter does not take the flow, or its text is too long for a length.
    pub(crate) fn text_of(&self, alloc: Global, flow: Flow) -> Result<Option<Vec<u8>>, NoMemory>
        ensures text { IfOk result (λ text. pieces_of (Some (saves_to self.now)) flow ≡ map (piece_at (saves_to self.now).path) (texts_in text)) }
    {
        match takes(&self.filter, &flow) {
            Ok(true) => written_text(alloc, flow),
            Ok(false) => {
                drop(flow);
                Ok(None)
            }
            Err(NoMemory) => {
                drop(flow);
                Err(NoMemory)
            }
        }
    }
}

// Whether the filter takes the flow.
fn takes(filter: &Option<Filter>, flow: &Flow) -> Result<bool, NoMemory>
    ensures taken { IfOk result (λ answer. answer ≡ is_taken (option_map expression filter.now) flow.now) }
{
    match filter {
        None => Ok(true),
        Some(filter) => filter.matches(flow),
    }
}

// The text of the flow; none where it is too long for a length.
fn written_text(alloc: Global, flow: Flow) -> Result<Option<Vec<u8>>, NoMemory>
    ensures text { IfOk result (λ text. texts_of flow ≡ texts_in text) }
{
    let entry = Entry {
        flow,
        others: Others::new(alloc),
    };
    let mut text = Vec::new(alloc);
    match write_flow(alloc, &entry, &mut text) {
        Ok(()) => Ok(Some(text)),
        Err(WriteError::TooLong) => Ok(None),
        Err(WriteError::NoMemory) => Err(NoMemory),
    }
}

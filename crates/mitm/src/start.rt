//! What is known of a run that serves, once its options are read.
use px_options::Options;
use std::alloc::Global;

/// How many files the run reads before it serves, and where it saves then.
#[derive(Drop)]
pub struct Start {
    left: usize,
    path: String,
}

impl Start {
    /// That of these options, behind their own file; none where they save nothing, or memory ran out.
    pub fn of(alloc: Global, options: &Options) -> Option<Start> {
        let Some(path) = &options.save_stream_file else {
            return None;
        };
        let Ok(path) = String::from_str(alloc, path.as_str()) else {
            return None;
        };
        let replayed = options.server_replay.as_slice().len();
        let left = replayed.saturating_add(options.client_replay.as_slice().len());
        Some(Start { left, path })
    }

    /// One of the files is read.
    pub fn count(&mut self) {
        self.left = self.left.saturating_sub(1);
    }

    /// Where the run saves, once all of them are.
    pub fn path(&self) -> Option<&str> {
        if self.left > 0 {
            return None;
        }
        Some(self.path.as_str())
    }
}

// Why a call isn't answered by a decision.
use crate::detailed::{Failure, plain};
use cedar_messages::places::{Position, line_and_column};
use std::alloc::{AllocError, AllocFailed, Global};

/// Why the reading of a call stops, or its answering.
#[derive(Debug, Drop)]
pub(crate) enum CallError {
    Memory,
    Failed(Failure),
}

impl From<AllocError> for CallError {
    fn from(_error: AllocError) -> CallError {
        CallError::Memory
    }
}

impl<T: Drop> From<AllocFailed<T>> for CallError {
    fn from(_error: AllocFailed<T>) -> CallError {
        CallError::Memory
    }
}

/// The text of a call, and what its parts are made with.
#[derive(Clone, Copy)]
pub(crate) struct Source<'j> {
    pub(crate) alloc: Global,
    pub(crate) json: &'j str,
}

impl<'j> Source<'j> {
    /// That what stands at a byte can't be read, in words.
    pub(crate) fn unread(self, byte: usize, code: &str, words: &str) -> CallError {
        let place = line_and_column(self.json, byte);
        self.unread_at(place, code, String::from_str(self.alloc, words))
    }

    /// That what stands at a place can't be read, in words.
    pub(crate) fn unread_at(
        self,
        place: Position,
        code: &str,
        words: Result<String, AllocError>,
    ) -> CallError {
        match self.failed(code, words) {
            CallError::Failed(failure) => CallError::Failed(Failure {
                place: Some(place),
                ..failure
            }),
            CallError::Memory => CallError::Memory,
        }
    }

    /// That a call fails, in these words.
    pub(crate) fn failed(self, code: &str, message: Result<String, AllocError>) -> CallError {
        let message = match message {
            Ok(message) => message,
            Err(_) => return CallError::Memory,
        };
        match plain(self.alloc, code, message) {
            Ok(failure) => CallError::Failed(failure),
            Err(_) => CallError::Memory,
        }
    }
}

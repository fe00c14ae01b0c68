//! What the appender of a fixture does, as text.
use crate::fixture::{Fixture, misplaced};
use cq_fixtures::{done_text, index_text, number_text};
use std::alloc::Global;
use std::test::Fail;

impl Fixture {
    pub(crate) fn append(
        &mut self,
        alloc: Global,
        moment: u64,
        text: &str,
    ) -> Result<String, Fail> {
        match &mut self.appender {
            Some(appender) => index_text(
                alloc,
                &appender.append(&self.queue, moment, text.as_bytes()),
            ),
            None => misplaced("appender"),
        }
    }

    pub(crate) fn advance(&mut self, alloc: Global, moment: u64) -> Result<String, Fail> {
        match &mut self.appender {
            Some(appender) => number_text(
                alloc,
                "cycle ",
                &appender.advance(&self.queue, moment).map(u64::from),
            ),
            None => misplaced("appender"),
        }
    }

    pub(crate) fn begin(&mut self, alloc: Global, moment: u64, room: u32) -> Result<String, Fail> {
        let Some(appender) = self.appender.take() else {
            return misplaced("appender");
        };
        match appender.begin(&self.queue, moment, room) {
            Ok(writing) => {
                self.writing = Some(writing);
                Ok(String::from_str(alloc, "begun")?)
            }
            Err((appender, refusal)) => {
                self.appender = Some(appender);
                Ok(format!(in alloc; "{refusal:?}")?)
            }
        }
    }

    pub(crate) fn put(&mut self, alloc: Global, text: &str) -> Result<String, Fail> {
        match &mut self.writing {
            Some(writing) => done_text(alloc, "put", &writing.put(&self.queue, text.as_bytes())),
            None => misplaced("message"),
        }
    }

    pub(crate) fn complete(&mut self, alloc: Global) -> Result<String, Fail> {
        let Some(writing) = self.writing.take() else {
            return misplaced("message");
        };
        match writing.complete(&self.queue) {
            Ok((appender, index)) => {
                self.appender = Some(appender);
                Ok(format!(in alloc; "{}", index.value())?)
            }
            Err((writing, refusal)) => {
                self.writing = Some(writing);
                Ok(format!(in alloc; "{refusal:?}")?)
            }
        }
    }

    pub(crate) fn give_up(&mut self, alloc: Global) -> Result<String, Fail> {
        let Some(writing) = self.writing.take() else {
            return misplaced("message");
        };
        self.appender = Some(writing.roll_back(&self.queue));
        Ok(String::from_str(alloc, "given up")?)
    }
}

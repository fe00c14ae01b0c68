//! What `check` prints of the log of a folder.
use cq_folder::LOG_FILE;
use cq_logged::{LogNews, LogUse};
use cq_text::{ToolFault, print};
use std::alloc::{AllocError, Global};
use std::io::Write;

/// Prints how many messages the log has that the images lack, and whether a queue is live in the folder. What `check` prints of the
/// images comes before.
pub(crate) fn print_news<W: Write>(
    alloc: Global,
    output: &mut W,
    news: LogNews,
) -> Result<(), ToolFault> {
    print(output, text_of(alloc, news)?.as_bytes())
}

/// Returns the line of a log.
fn text_of(alloc: Global, news: LogNews) -> Result<String, AllocError> {
    let messages = news.messages;
    match news.log_use {
        LogUse::InUse => format!(in alloc; "{LOG_FILE}: {messages} messages, live\n"),
        LogUse::Free => format!(in alloc; "{LOG_FILE}: {messages} messages, not live\n"),
        LogUse::Failed(fault) => {
            format!(in alloc; "{LOG_FILE}: {messages} messages, live or not: {fault}\n")
        }
    }
}

//! What the help of a command says.
use crate::word_tests::{expect_within, parsed_line};
use std::alloc::{AllocError, Global};
use std::test::Fail;

/// What the help of a command says.
fn help_of(alloc: Global, command: &str) -> Result<String, AllocError> {
    let line = format!(in alloc; "cq|{command}|--help")?;
    parsed_line(alloc, line.as_str())
}

/// Fails if the help of a command lacks one of these texts.
fn expect_in_help(alloc: Global, command: &str, wants: &[&str]) -> Result<(), Fail> {
    let help = help_of(alloc, command)?;
    for want in wants {
        expect_within(help.as_str(), want)?;
    }
    Ok(())
}

/// Fails if the help of a command lacks a text of its row.
fn expect_help(alloc: Global, table: &[(&str, &[&str])]) -> Result<(), Fail> {
    for &(command, wants) in table {
        expect_in_help(alloc, command, wants)?;
    }
    Ok(())
}

/// Commands, and what the help of each says: of limits, of what is printed, and in an example.
static HELP: [(&str, &[&str]); 19] = [
    (
        "race",
        &[
            "Usage: cq race <MESSAGES>",
            " <MESSAGES>  How many messages each writer appends: from 1 to 1,000\n",
            "Prints 'writer W: K in order' for the writers 0 and 1: both readers read the first K\n\
         messages of the writer in their order, and not one more. Then 'reader R: K read' for\n\
         the readers 0 and 1, where K is how many messages the reader read.\n",
            "Example:\n  cq race 1000\n",
        ],
    ),
    (
        "init",
        &[
            " <DIR>       The folder of the queue, which is there already\n",
            " <ROLL>      How long a cycle is: daily, hourly or minutely\n",
            " <EPOCH>     When cycle 0 begins, in milliseconds of Unix time: at most 253,402,300,799,999\n",
            " <CELLS>     The cells of a cycle, of four bytes each: from 13 + 2 * (1 + COUNT) to 1,048,576\n",
            " <COUNT>     The entries of a table of the index: a power of two from 8 to 1,024\n",
            " <SPACING>   One message in so many has an entry in the index: a power of two from 1 to 256\n",
            " <CYCLES>    How many cycles may begin: from 1 to 64, and CYCLES * CELLS is at most 4,194,304\n",
            " [NAMES]...  The names of the tailers: at most 16, no two the same,\n",
            " each of 1 to 32 bytes of A-Z, a-z, 0-9, '_', '-' and '.'\n",
            "Example:\n  mkdir journal && cq init journal daily 0 65536 32 1 8 reader\n",
        ],
    ),
    (
        "new",
        &[
            " <DIR>       The folder of the queue. It is made if it is not there\n",
            " [NAMES]...  The names of the tailers: at most 16, no two the same,\n",
            " --roll <ROLL>    How long a cycle is: daily, hourly or minutely. It is daily by default\n",
            " --cells <CELLS>  The cells of a cycle, of four bytes each: at most 1,048,576, and 65,536 by default\n",
            " --cycles <N>     How many cycles may begin: from 1 to 64, and N * CELLS is at most 4,194,304. By default\n",
            "A folder without a queue may be there already. EPOCH is 0. COUNT and SPACING are chosen by the cells: the\n",
            "Example:\n  cq new journal reader\n",
        ],
    ),
    (
        "explain",
        &[
            " [WORDS]...  Words of the text of a fault\n",
            "It explains the faults whose texts have WORDS in them, or the one whose message WORDS are. Without WORDS it\n",
            "Example:\n  cq explain folder fault\n",
        ],
    ),
    (
        "echo",
        &[
            "Input: at most 129,000 bytes, in at most 1,000 lines of 1 to 128 bytes\n",
            "Example:\n  printf 'hello\\nworld\\n' | cq echo\n",
        ],
    ),
    (
        "cycle",
        &[
            " <ROLL>    How long a cycle is: daily, hourly or minutely\n",
            " <EPOCH>   When cycle 0 begins, in milliseconds of Unix time: at most 253,402,300,799,999\n",
            " <MOMENT>  The moment, in milliseconds of Unix time: from EPOCH to 253,402,300,799,999,\n",
            " and in a cycle up to 2,147,483,646\n",
            "Example:\n  cq cycle daily 0 $(date +%s%3N)\n",
        ],
    ),
    (
        "log",
        &[
            "Input: until it ends, lines that are not empty, each in a cycle with room for it. A line has the time\n",
            "Example:\n  printf 'hello\\nworld\\n' | cq log journal\n",
        ],
    ),
    (
        "write",
        &[
            " <MOMENT>  The moment of the lines, in milliseconds of Unix time: from the queue's EPOCH\n",
            " to 253,402,300,799,999, and in a cycle up to 2,147,483,646. Or 'now', the time\n",
            " of the machine's clock\n",
            " --null   Appends what each byte 0 ends, in place of each line. It may have line feeds\n",
            " --whole  Appends the whole input as one message, with all of its bytes\n",
            "Input: at most 8,388,608 bytes, of which no line is empty, and all fit into one cycle\n",
            "Examples:\n  printf 'hello\\nworld\\n' | cq write journal $(date +%s%3N)\n",
            "\n  find . -print0 | cq write journal now --null\n",
        ],
    ),
    (
        "read",
        &[
            " --from <INDEX>   The index to begin at: 16 lower-case hexadecimal digits\n",
            " --last <N>       Prints the last N messages, in order. Not with --back, --from and --limit\n",
            " --since <W>      Prints messages at or above W alone. Not with --from\n",
            " --hex            Prints the index, a space and the bytes in hexadecimal digits, on a line\n",
            " --follow         Then waits, and prints the messages that come. Not with --back\n",
            " --for <SECONDS>  With --follow: ends after this time\n",
            "W is an index of 16 lower-case hexadecimal digits; '@' and the milliseconds of Unix time of a moment,\n",
            "Examples:\n  cq read journal --from 00004e2000000000\n  cq read journal --since 20241004 --json\n  cq read journal --last 10 --follow\n",
        ],
    ),
    (
        "take",
        &[
            " <NAME>  The name of the tailer: one of the names of the queue, which 'name DIR list' prints\n",
            " --limit <N>       Takes the next N messages at once, or as many as have come\n",
            " --peek            Prints what it would take, and does not move the tailer\n",
            " --wait <SECONDS>  Waits up to this time where no message has come\n",
            "With an option it prints nothing where no message has come, and its status is 4 then. Without one it\n",
            "Example:\n  cq take journal reader\n  while cq take journal reader --limit 100; do :; done\n",
        ],
    ),
    (
        "drop",
        &[
            " <CYCLE>  Reads pass over the cycles before this one. One above the last cycle counts as that\n",
            "Example:\n  cq drop journal 20005\n",
        ],
    ),
    (
        "trim",
        &[
            " --keep <N>    Drops all cycles but the last N that have begun\n",
            " --before <W>  Drops the cycles before this one: that of an index of 16 lower-case hexadecimal digits,\n",
            "With both the one that drops more counts. The last cycle is always kept. It drops nothing if messages of\n",
            "Example:\n  cq trim journal --keep 30\n",
        ],
    ),
    (
        "check",
        &[
            " <DIR>  The folder of the queue, which is there already\n",
            "Example:\n  cq check journal\n",
        ],
    ),
    (
        "stat",
        &[
            "'more_cycles' with what is left; 'name' with the name, its position and the messages that are left\n",
            "Example:\n  cq stat journal | awk '$1 == \"name\" { print $2, $4 }'\n",
        ],
    ),
    (
        "dump",
        &[
            " <FILE>  The image's file in DIR: yyyyMMdd.cqi, yyyyMMdd-HH.cqi or yyyyMMdd-HHmm.cqi, by the roll\n",
            "Example:\n  cq dump journal $(date -u +%Y%m%d).cqi\n",
        ],
    ),
    (
        "salvage",
        &[
            " <FILE>  The image's file in DIR: yyyyMMdd.cqi, yyyyMMdd-HH.cqi or yyyyMMdd-HHmm.cqi, by the roll\n",
            "Example:\n  cq salvage journal $(date -u +%Y%m%d).cqi\n",
        ],
    ),
    (
        "repair",
        &[
            "Makes the messages before the fault of an image the image, and keeps the old file as FILE.bad\n",
            " --dry-run  Prints what it would do, and changes nothing\n",
            "The messages are those that 'salvage' prints.\n",
            "Example:\n  cq repair journal $(date -u +%Y%m%d).cqi --dry-run\n",
        ],
    ),
    (
        "migrate",
        &[
            "CELLS + 3 is to be at most 1,048,576, and CYCLES * (CELLS + 3) at most 4,194,304.\n",
            "Example:\n  cq migrate journal\n",
        ],
    ),
    (
        "name",
        &[
            " <ACTION>  What is done: list, add, remove or move\n",
            "--at 0000000000000000 it starts from the beginning. 'remove NAME' removes a name with its position.\n",
            "Example:\n  cq name journal add reader --at 20241004\n",
        ],
    ),
];

#[test]
fn help_says_limits_what_is_printed_and_an_example(rt: HostRuntime) -> Result<(), Fail> {
    expect_help(rt.alloc(), &HELP)
}

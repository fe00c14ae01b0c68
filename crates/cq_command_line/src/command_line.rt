//! The program's commands and their arguments, as `clap` is given them.
ghost use Rattle.std.specs.Prelude.{◌≡◌, IfOk};
ghost use Rattle.cq_command_line.specs.CommandLine.{Makes, command_line, program, with_commands};

use crate::arguments::Argument;
use crate::commands::{Description, commands};
use clap::Command;
use std::alloc::{AllocError, Global};

/// The version, which `LINNETSHELF_VERSION` of `c/linnetshelf.h` has too.
const VERSION: &str = "0.1.0";

/// Returns the program and its commands.
pub(crate) fn command_line<'a>(alloc: Global) -> Result<Command<'a>, AllocError>
    ensures { IfOk result (λ command. Makes command command_line) }
{
    let commands = commands(alloc, &descriptions())?;
    program(alloc).subcommands(commands)
}

/// Returns what the commands are, in the order in which help lists them.
fn descriptions() -> [&'static Description; 19]
    ensures { with_commands program result ≡ command_line }
{
    [
        &ECHO, &CYCLE, &RACE, &EXPLAIN, &INIT, &NEW, &WRITE, &LOG, &READ, &TAKE, &DROP, &TRIM,
        &NAME, &MIGRATE, &STAT, &CHECK, &DUMP, &SALVAGE, &REPAIR,
    ]
}

/// Returns the program without its commands.
fn program<'a>(alloc: Global) -> Command<'a>
    ensures { Makes result program }
{
    Command::new(alloc, "cq")
        .about("An append journal")
        .version(VERSION)
        .subcommand_required(true)
}

static ECHO: Description = Description {
    name: "echo",
    about: "Stores each line of the input, and prints it with its number",
    after_help: "Input: at most 129,000 bytes, in at most 1,000 lines of 1 to 128 bytes\n\n\
     Example:\n  printf 'hello\\nworld\\n' | cq echo",
    arguments: &[],
};

static CYCLE: Description = Description {
    name: "cycle",
    about: "Prints the cycle of a moment, its name and its first index",
    after_help: "Example:\n  cq cycle daily 0 $(date +%s%3N)",
    arguments: &[
        ROLL,
        EPOCH,
        Argument::Number(
            "MOMENT",
            "The moment, in milliseconds of Unix time: from EPOCH to 253,402,300,799,999,\n\
             and in a cycle up to 2,147,483,646",
        ),
    ],
};

static RACE: Description = Description {
    name: "race",
    about: "Lets two appenders and two tailers share a new queue, each in a thread of its own",
    after_help: "Prints 'writer W: K in order' for the writers 0 and 1: both readers read the first K\n\
     messages of the writer in their order, and not one more. Then 'reader R: K read' for\n\
     the readers 0 and 1, where K is how many messages the reader read.\n\n\
     Example:\n  cq race 1000",
    arguments: &[Argument::Between(
        "MESSAGES",
        1,
        1000,
        "How many messages each writer appends: from 1 to 1,000",
    )],
};

static EXPLAIN: Description = Description {
    name: "explain",
    about: "Prints what a fault means, and what to do",
    after_help: "It explains the faults whose texts have WORDS in them, or the one whose message WORDS are. Without WORDS it\n\
     explains all.\n\n\
     Example:\n  cq explain folder fault",
    arguments: &[Argument::Words("WORDS", "Words of the text of a fault")],
};

static INIT: Description = Description {
    name: "init",
    about: "Makes a queue in a folder",
    after_help: "Example:\n  mkdir journal && cq init journal daily 0 65536 32 1 8 reader",
    arguments: &[
        FOLDER,
        ROLL,
        EPOCH,
        Argument::Number(
            "CELLS",
            "The cells of a cycle, of four bytes each: from 13 + 2 * (1 + COUNT) to 1,048,576",
        ),
        Argument::Number(
            "COUNT",
            "The entries of a table of the index: a power of two from 8 to 1,024",
        ),
        Argument::Number(
            "SPACING",
            "One message in so many has an entry in the index: a power of two from 1 to 256",
        ),
        Argument::Number(
            "CYCLES",
            "How many cycles may begin: from 1 to 64, and CYCLES * CELLS is at most 4,194,304",
        ),
        NAMES,
    ],
};

static NEW: Description = Description {
    name: "new",
    about: "Makes a folder with a queue, and prints the line of 'init' that does the same",
    after_help: "A folder without a queue may be there already. EPOCH is 0. COUNT and SPACING are chosen by the cells: the\n\
     line that it prints has them.\n\n\
     Example:\n  cq new journal reader",
    arguments: &[
        Argument::Word(
            "DIR",
            "The folder of the queue. It is made if it is not there",
        ),
        NAMES,
        Argument::Option(
            "roll",
            "ROLL",
            "How long a cycle is: daily, hourly or minutely. It is daily by default",
        ),
        Argument::OptionBetween(
            "cells",
            "CELLS",
            1,
            1_048_576,
            "The cells of a cycle, of four bytes each: at most 1,048,576, and 65,536 by default",
        ),
        Argument::OptionBetween(
            "cycles",
            "N",
            1,
            64,
            "How many cycles may begin: from 1 to 64, and N * CELLS is at most 4,194,304. By default\n\
             as many as that allows",
        ),
    ],
};

static WRITE: Description = Description {
    name: "write",
    about: "Appends each line of the input",
    after_help: "Input: at most 8,388,608 bytes, of which no line is empty, and all fit into one cycle\n\n\
     Examples:\n  printf 'hello\\nworld\\n' | cq write journal $(date +%s%3N)\n  find . -print0 | cq write journal now --null",
    arguments: &[
        FOLDER,
        Argument::Word(
            "MOMENT",
            "The moment of the lines, in milliseconds of Unix time: from the queue's EPOCH\n\
             to 253,402,300,799,999, and in a cycle up to 2,147,483,646. Or 'now', the time\n\
             of the machine's clock",
        ),
        Argument::FlagAgainst(
            "null",
            &["whole"],
            "Appends what each byte 0 ends, in place of each line. It may have line feeds",
        ),
        Argument::Flag(
            "whole",
            "Appends the whole input as one message, with all of its bytes",
        ),
    ],
};

static LOG: Description = Description {
    name: "log",
    about: "Keeps a queue open: appends each line as it comes, and prints its index once it is stored",
    after_help: "Input: until it ends, lines that are not empty, each in a cycle with room for it. A line has the time\n\
     of the machine's clock. The index of a line is printed once the line is stored in queue.log in DIR:\n\
     from then on it survives a crash, of the kind that --syncs says. At the end of the input the images\n\
     are saved. After a crash the next command that may write saves them from the log.\n\n\
     Example:\n  printf 'hello\\nworld\\n' | cq log journal",
    arguments: &[
        FOLDER,
        Argument::Count(
            "for",
            "SECONDS",
            "Ends after this time too. A line that has not ended by then is not appended",
        ),
        Argument::OptionBetween(
            "syncs",
            "SYNCS",
            0,
            2,
            "The syncs before the index of a line is printed. 2, which is the default, survives any loss of\n\
             power. 1 survives one that leaves of each byte the old one or the new one. 0 survives the end of\n\
             the process alone",
        ),
        Argument::Count(
            "checkpoint",
            "BYTES",
            "Saves the images each time that this many bytes of lines came: 4,194,304 by default",
        ),
    ],
};

static READ: Description = Description {
    name: "read",
    about: "Prints the messages in order",
    after_help: "Without --text, --null, --hex and --json it prints the index, a space and the message, on a line.\n\
     W is an index of 16 lower-case hexadecimal digits; '@' and the milliseconds of Unix time of a moment,\n\
     or the name of a cycle, as 20241004, which both mean the first index of their cycle.\n\n\
     Examples:\n  cq read journal --from 00004e2000000000\n  cq read journal --since 20241004 --json\n\
     \x20 cq read journal --last 10 --follow",
    arguments: &[
        FOLDER,
        Argument::Flag("back", "From the end on, towards the first message"),
        Argument::Option(
            "from",
            "INDEX",
            "The index to begin at: 16 lower-case hexadecimal digits",
        ),
        Argument::Count(
            "limit",
            "N",
            "Prints the first N of these messages, and no more",
        ),
        Argument::CountAgainst(
            "last",
            "N",
            &["back", "from", "limit"],
            "Prints the last N messages, in order. Not with --back, --from and --limit",
        ),
        Argument::OptionAgainst(
            "since",
            "W",
            &["from"],
            "Prints messages at or above W alone. Not with --from",
        ),
        Argument::Option("until", "W", "Prints messages below W alone"),
        Argument::FlagAgainst(
            "text",
            &["null", "hex", "json"],
            "Prints the message alone, on a line",
        ),
        Argument::FlagAgainst(
            "null",
            &["hex", "json"],
            "Prints the message alone, and a byte 0 after it, as 'xargs -0' and 'sort -z' read it",
        ),
        Argument::FlagAgainst(
            "hex",
            &["json"],
            "Prints the index, a space and the bytes in hexadecimal digits, on a line",
        ),
        Argument::Flag(
            "json",
            "Prints an object of JSON, on a line: 'index', 'cycle', 'sequence', and 'text', or 'base64' if\n\
             the message is not UTF-8",
        ),
        Argument::FlagAgainst(
            "follow",
            &["back"],
            "Then waits, and prints the messages that come. Not with --back",
        ),
        Argument::Count("for", "SECONDS", "With --follow: ends after this time"),
    ],
};

static TAKE: Description = Description {
    name: "take",
    about: "Prints the next message of a tailer, and moves the tailer behind it",
    after_help: "With an option it prints nothing where no message has come, and its status is 4 then. Without one it\n\
     prints 'not yet'.\n\n\
     Example:\n  cq take journal reader\n  while cq take journal reader --limit 100; do :; done",
    arguments: &[
        FOLDER,
        Argument::Word(
            "NAME",
            "The name of the tailer: one of the names of the queue, which 'name DIR list' prints",
        ),
        Argument::Count(
            "limit",
            "N",
            "Takes the next N messages at once, or as many as have come",
        ),
        Argument::Flag(
            "peek",
            "Prints what it would take, and does not move the tailer",
        ),
        Argument::Count(
            "wait",
            "SECONDS",
            "Waits up to this time where no message has come",
        ),
    ],
};

static DROP: Description = Description {
    name: "drop",
    about: "Lets reads pass over old cycles, and prints the first one that they look at",
    after_help: "Example:\n  cq drop journal 20005",
    arguments: &[
        FOLDER,
        Argument::Number(
            "CYCLE",
            "Reads pass over the cycles before this one. One above the last cycle counts as that",
        ),
    ],
};

static TRIM: Description = Description {
    name: "trim",
    about: "Removes the images of dropped cycles, so that as many may begin again, and prints their names",
    after_help: "Without --keep and --before it drops no cycle: it removes the images of those that 'drop' dropped.\n\
     With both the one that drops more counts. The last cycle is always kept. It drops nothing if messages of\n\
     the cycles that it would drop are left for a name, and says for which.\n\n\
     Example:\n  cq trim journal --keep 30",
    arguments: &[
        FOLDER,
        Argument::Count(
            "keep",
            "N",
            "Drops all cycles but the last N that have begun",
        ),
        Argument::Option(
            "before",
            "W",
            "Drops the cycles before this one: that of an index of 16 lower-case hexadecimal digits,\n\
             that of a moment, as '@' and its milliseconds of Unix time, or the one of this name, as 20241004",
        ),
        Argument::Flag("force", "Drops messages too that are left for a name"),
        Argument::Flag(
            "dry-run",
            "Prints what it would remove, and changes nothing",
        ),
    ],
};

static CHECK: Description = Description {
    name: "check",
    about: "Says of each image what it holds, or what is wrong with it",
    after_help: "Example:\n  cq check journal",
    arguments: &[FOLDER],
};

static STAT: Description = Description {
    name: "stat",
    about: "Prints the settings of a queue, its cycles, its names, and what is left",
    after_help: "Prints a line each: 'version', 'roll', 'epoch', 'cells', 'count', 'spacing' and 'cycles' with the\n\
     settings; 'cycle' with the name, the number, the messages, their bytes, the used and the left cells,\n\
     and 'dropped', 'ended' or 'open', for each cycle that has begun; 'first', 'floor', 'end' and\n\
     'more_cycles' with what is left; 'name' with the name, its position and the messages that are left\n\
     for it. The log of the queue counts too.\n\n\
     Example:\n  cq stat journal | awk '$1 == \"name\" { print $2, $4 }'",
    arguments: &[
        FOLDER,
        Argument::Flag("json", "As an object of JSON, on one line"),
    ],
};

static DUMP: Description = Description {
    name: "dump",
    about: "Prints the records of an image",
    after_help: "Example:\n  cq dump journal $(date -u +%Y%m%d).cqi",
    arguments: &[FOLDER, IMAGE_FILE],
};

static SALVAGE: Description = Description {
    name: "salvage",
    about: "Prints the messages in front of what is wrong with an image, and what that is",
    after_help: "Example:\n  cq salvage journal $(date -u +%Y%m%d).cqi",
    arguments: &[FOLDER, IMAGE_FILE],
};

static REPAIR: Description = Description {
    name: "repair",
    about: "Makes the messages before the fault of an image the image, and keeps the old file as FILE.bad",
    after_help: "The messages are those that 'salvage' prints.\n\n\
     Example:\n  cq repair journal $(date -u +%Y%m%d).cqi --dry-run",
    arguments: &[
        FOLDER,
        IMAGE_FILE,
        Argument::Flag("dry-run", "Prints what it would do, and changes nothing"),
    ],
};

static MIGRATE: Description = Description {
    name: "migrate",
    about: "Makes a folder of version 1 one of version 2, in which each cycle has 3 more cells",
    after_help: "The first line of queue.cqc tells the version: 'cq 1' or 'cq 2'. A folder of version 2 stays\n\
     as it is. CELLS + 3 is to be at most 1,048,576, and CYCLES * (CELLS + 3) at most 4,194,304.\n\n\
     Example:\n  cq migrate journal",
    arguments: &[FOLDER],
};

static NAME: Description = Description {
    name: "name",
    about: "Prints the names of the tailers with their positions, adds and removes names, and moves them",
    after_help: "'list' prints a line for each name: NAME and its position. 'add NAME' adds a name at W of --at, and\n\
     without it at the end of the queue, so that it starts with the message that comes next. With\n\
     --at 0000000000000000 it starts from the beginning. 'remove NAME' removes a name with its position.\n\
     'move NAME --to W' moves a name. These three print the line of NAME.\n\
     W is an index of 16 lower-case hexadecimal digits; or '@' and the milliseconds of Unix time of a\n\
     moment, or the name of a cycle, as 20241004, which both mean the first index of their cycle. It is at\n\
     most the end of the queue.\n\n\
     Example:\n  cq name journal add reader --at 20241004",
    arguments: &[
        FOLDER,
        Argument::Word("ACTION", "What is done: list, add, remove or move"),
        Argument::Maybe(
            "NAME",
            "The name of a tailer: 1 to 32 bytes of A-Z, a-z, 0-9, '_', '-' and '.', and at most 16 names",
        ),
        Argument::Option("at", "W", "With 'add': the position of NAME"),
        Argument::Option("to", "W", "With 'move': the position of NAME"),
    ],
};

/// The folder of a queue.
const FOLDER: Argument = Argument::Word("DIR", "The folder of the queue, which is there already");

/// The file of an image.
const IMAGE_FILE: Argument = Argument::Word(
    "FILE",
    "The image's file in DIR: yyyyMMdd.cqi, yyyyMMdd-HH.cqi or yyyyMMdd-HHmm.cqi, by the roll",
);

/// The names of tailers.
const NAMES: Argument = Argument::Words(
    "NAMES",
    "The names of the tailers: at most 16, no two the same,\n\
     each of 1 to 32 bytes of A-Z, a-z, 0-9, '_', '-' and '.'",
);

/// How long a cycle is.
const ROLL: Argument = Argument::Word("ROLL", "How long a cycle is: daily, hourly or minutely");

/// When cycle 0 begins.
const EPOCH: Argument = Argument::Number(
    "EPOCH",
    "When cycle 0 begins, in milliseconds of Unix time: at most 253,402,300,799,999",
);

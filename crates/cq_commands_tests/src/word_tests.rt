//! What the arguments of a command line are.
use cq_command_line::{ParseFault, parse};
use std::alloc::{AllocError, Global};
use std::test::Fail;

/// What arguments are, or what is said of them.
fn parsed(alloc: Global, words: &[String]) -> Result<String, AllocError> {
    match parse(alloc, words) {
        Ok(order) => format!(in alloc; "{order:?}"),
        Err(ParseFault::NotUnderstood(error)) => error.to_string(alloc),
        Err(ParseFault::Version(error)) => format!(in alloc; "Version: {error}"),
        Err(ParseFault::OutOfMemory) => Err(AllocError),
    }
}

/// The arguments of a line, which have a bar between them, each in memory of its own.
pub fn words_of(alloc: Global, line: &str) -> Result<Vec<String>, AllocError> {
    let mut words = Vec::new(alloc);
    for word in line.split('|') {
        words.push(String::from_str(alloc, word)?)?;
    }
    Ok(words)
}

/// What the arguments of a line are, or what is said of them.
pub fn parsed_line(alloc: Global, line: &str) -> Result<String, AllocError> {
    let words = words_of(alloc, line)?;
    parsed(alloc, words.as_slice())
}

/// Fails if what is said does not contain what is wanted, and gives both.
pub fn expect_within(said: &str, want: &str) -> Result<(), Fail> {
    if said.contains(want) {
        return Ok(());
    }
    Err(Fail::new(format_args!("no {want} in {said}")))
}

/// Fails if the arguments of a line are something else than its row wants.
fn expect(alloc: Global, table: &[(&str, &str)]) -> Result<(), Fail> {
    for &(line, want) in table {
        expect_within(parsed_line(alloc, line)?.as_str(), want)?;
    }
    Ok(())
}

static WORDS: [(&str, &str); 43] = [
    // Arguments of no command, of `echo` and of `cycle`, each line with what it is.
    ("cq|echo", "Echo"),
    ("another name|echo", "Echo"),
    ("cq", "requires a subcommand"),
    ("cq|nonsense", "unrecognized subcommand 'nonsense'"),
    ("cq|echo|extra", "unexpected argument 'extra'"),
    ("cq|--version", "Version: cq 0.1.0\n"),
    ("cq|-V", "Version: cq 0.1.0\n"),
    ("another name|--version", "Version: cq 0.1.0\n"),
    ("cq|--version=1", "unexpected value '1' for '--version'"),
    ("cq|echo|--version", "unexpected argument '--version'"),
    ("cq|--help", "Usage: cq <COMMAND>"),
    ("cq|--help", " -V, --version  Print version\n"),
    ("cq|echo|--help", "Usage: cq echo"),
    (
        "cq|cycle|weekly|007|18446744073709551615",
        "Cycle { roll: \"weekly\", epoch: 7, moment: 18446744073709551615 }",
    ),
    ("cq|cycle|daily|0", "<MOMENT>"),
    (
        "cq|cycle|daily|0|18446744073709551616",
        "invalid value '18446744073709551616'",
    ),
    ("cq|cycle|daily|0x0|0", "invalid value '0x0'"),
    ("cq|cycle|daily|0|0|0", "unexpected argument '0'"),
    // Arguments of `init`, each line with what it is.
    (
        "cq|init|q|hourly|1|2|3|4|5",
        "Init { folder: \"q\", settings: InitSettings { roll: \"hourly\", epoch: 1, cells: 2, index_count: 3, \
         index_spacing: 4, cycles: 5, names: [] } }",
    ),
    (
        "cq|init|q|weekly|0|18446744073709551615|0|+4|005|b|a|b",
        "Init { folder: \"q\", settings: InitSettings { roll: \"weekly\", epoch: 0, cells: 18446744073709551615, \
         index_count: 0, index_spacing: 4, cycles: 5, names: [\"b\", \"a\", \"b\"] } }",
    ),
    (
        "cq|init|q||1|2|3|4|5|--|-a|",
        "roll: \"\", epoch: 1, cells: 2, index_count: 3, index_spacing: 4, cycles: 5, names: [\"-a\", \"\"] } }",
    ),
    ("cq|init|q|hourly|1|2|3|4", "<CYCLES>"),
    ("cq|init", "<DIR>"),
    (
        "cq|init|q|hourly|1|2|3|4|five",
        "invalid value 'five' for '<CYCLES>'",
    ),
    (
        "cq|init|q|hourly|1|18446744073709551616|3|4|5",
        "invalid value '18446744073709551616' for '<CELLS>'",
    ),
    ("cq|init|q|hourly|-1|2|3|4|5", "unexpected argument '-1'"),
    ("cq|init|q|hourly|1|2|3|4|5|-a", "unexpected argument '-a'"),
    (
        "cq|init|--help",
        "Usage: cq init <DIR> <ROLL> <EPOCH> <CELLS> <COUNT> <SPACING> <CYCLES> [NAMES]...",
    ),
    // Arguments of `race`, each line with what it is.
    ("cq|race|1", "Race { messages: 1 }"),
    ("cq|race|1000", "Race { messages: 1000 }"),
    ("cq|race|007", "Race { messages: 7 }"),
    ("cq|race|0", "invalid value '0' for '<MESSAGES>'"),
    ("cq|race|1001", "invalid value '1001' for '<MESSAGES>'"),
    (
        "cq|race|4294967297",
        "invalid value '4294967297' for '<MESSAGES>'",
    ),
    ("cq|race|ten", "invalid value 'ten' for '<MESSAGES>'"),
    ("cq|race", "<MESSAGES>"),
    ("cq|race|1|2", "unexpected argument '2'"),
    // Arguments of `explain`, each line with what it is.
    ("cq|explain", "Explain { words: [] }"),
    (
        "cq|explain|folder|fault",
        "Explain { words: [\"folder\", \"fault\"] }",
    ),
    (
        "cq|explain|line 2: empty||--|-x",
        "Explain { words: [\"line 2: empty\", \"\", \"-x\"] }",
    ),
    ("cq|explain|-x", "unexpected argument '-x'"),
    ("cq|explain|--all", "unexpected argument '--all'"),
    ("cq|explain|--help", "Usage: cq explain [WORDS]..."),
];

#[test]
fn parses_words(rt: HostRuntime) -> Result<(), Fail> {
    expect(rt.alloc(), &WORDS)
}

/// Arguments of `read`, each line with what it is.
static READERS: [(&str, &str); 53] = [
    (
        "cq|read|q",
        "Read { folder: \"q\", settings: ReadSettings { form: Line, back: false, from: None, limit: None, last: None, since: None, until: None } }",
    ),
    (
        "cq|read|q|--back",
        "Read { folder: \"q\", settings: ReadSettings { form: Line, back: true, from: None, limit: None, last: None, since: None, until: None } }",
    ),
    (
        "cq|read|--back|q",
        "Read { folder: \"q\", settings: ReadSettings { form: Line, back: true, from: None, limit: None, last: None, since: None, until: None } }",
    ),
    (
        "cq|read|q|--from|0000000100000002",
        "Read { folder: \"q\", settings: ReadSettings { form: Line, back: false, from: Some(\"0000000100000002\"), limit: None, last: None, since: None, until: None } }",
    ),
    (
        "cq|read|--from|q|r",
        "Read { folder: \"r\", settings: ReadSettings { form: Line, back: false, from: Some(\"q\"), limit: None, last: None, since: None, until: None } }",
    ),
    (
        "cq|read|q|--back|--from|no index",
        "Read { folder: \"q\", settings: ReadSettings { form: Line, back: true, from: Some(\"no index\"), limit: None, last: None, since: None, until: None } }",
    ),
    (
        "cq|read|--from=|q|--back",
        "Read { folder: \"q\", settings: ReadSettings { form: Line, back: true, from: Some(\"\"), limit: None, last: None, since: None, until: None } }",
    ),
    (
        "cq|read|--back|--from|7|q",
        "Read { folder: \"q\", settings: ReadSettings { form: Line, back: true, from: Some(\"7\"), limit: None, last: None, since: None, until: None } }",
    ),
    (
        "cq|read|--limit|10|q",
        "Read { folder: \"q\", settings: ReadSettings { form: Line, back: false, from: None, limit: Some(10), last: None, since: None, until: None } }",
    ),
    (
        "cq|read|q|--back|--limit=4294967295|--from|7",
        "Read { folder: \"q\", settings: ReadSettings { form: Line, back: true, from: Some(\"7\"), limit: Some(4294967295), last: None, since: None, until: None } }",
    ),
    (
        "cq|read|q|--limit|0",
        "invalid value '0' for '--limit <N>': 0 is not in 1..=4294967295",
    ),
    (
        "cq|read|q|--limit|4294967296",
        "4294967296 is not in 1..=4294967295",
    ),
    (
        "cq|read|q|--limit|ten",
        "invalid value 'ten' for '--limit <N>'",
    ),
    ("cq|read", "<DIR>"),
    ("cq|read|q|r", "unexpected argument 'r'"),
    (
        "cq|read|q|--back|--back",
        "'--back' cannot be used multiple times",
    ),
    (
        "cq|read|q|--from|1|--from|2",
        "'--from <INDEX>' cannot be used multiple times",
    ),
    (
        "cq|read|q|--from",
        "a value is required for '--from <INDEX>'",
    ),
    (
        "cq|read|q|--back=yes",
        "unexpected value 'yes' for '--back'",
    ),
    ("cq|read|q|--text", "settings: ReadSettings { form: Text, "),
    ("cq|read|--null|q", "settings: ReadSettings { form: Null, "),
    (
        "cq|read|q|--hex|--back",
        "settings: ReadSettings { form: Hex, back: true, ",
    ),
    ("cq|read|q|--json", "settings: ReadSettings { form: Json, "),
    (
        "cq|read|q|--last|3|--until|20241004|--since=@0",
        "limit: None, last: Some(3), since: Some(\"@0\"), until: Some(\"20241004\") }",
    ),
    (
        "cq|read|q|--since|7|--until|8|--back|--limit|1|--text",
        "Read { folder: \"q\", settings: ReadSettings { form: Text, back: true, from: None, limit: Some(1), last: None, since: Some(\"7\"), until: Some(\"8\") } }",
    ),
    (
        "cq|read|q|--text|--null",
        "the argument '--text' cannot be used with '--null'",
    ),
    (
        "cq|read|q|--hex|--text",
        "the argument '--hex' cannot be used with '--text'",
    ),
    (
        "cq|read|q|--text|--json",
        "the argument '--text' cannot be used with '--json'",
    ),
    (
        "cq|read|q|--null|--hex",
        "the argument '--null' cannot be used with '--hex'",
    ),
    (
        "cq|read|q|--json|--null",
        "the argument '--json' cannot be used with '--null'",
    ),
    (
        "cq|read|q|--hex|--json",
        "the argument '--hex' cannot be used with '--json'",
    ),
    (
        "cq|read|q|--last|1|--back",
        "the argument '--last <N>' cannot be used with '--back'",
    ),
    (
        "cq|read|q|--from|7|--last|1",
        "the argument '--from <INDEX>' cannot be used with '--last <N>'",
    ),
    (
        "cq|read|q|--last|1|--limit|1",
        "the argument '--last <N>' cannot be used with '--limit <N>'",
    ),
    (
        "cq|read|q|--since|7|--from|7",
        "the argument '--since <W>' cannot be used with '--from <INDEX>'",
    ),
    ("cq|read|q|--last|0", "invalid value '0' for '--last <N>'"),
    ("cq|read|q|--until", "a value is required for '--until <W>'"),
    ("cq|read|q|--forth", "unexpected argument '--forth'"),
    (
        "cq|read|q|--follow",
        "Follow { folder: \"q\", settings: ReadSettings { form: Line, back: false, from: None, limit: None, last: None, since: None, until: None }, seconds: None }",
    ),
    (
        "cq|read|--for|1|q|--follow",
        "Follow { folder: \"q\", settings: ReadSettings { form: Line, back: false, from: None, limit: None, last: None, since: None, until: None }, seconds: Some(1) }",
    ),
    (
        "cq|read|q|--follow|--for=4294967295|--last|3|--until|@9|--json",
        "Follow { folder: \"q\", settings: ReadSettings { form: Json, back: false, from: None, limit: None, last: Some(3), since: None, until: Some(\"@9\") }, seconds: Some(4294967295) }",
    ),
    (
        "cq|read|q|--follow|--from|7|--limit|2|--null",
        "Follow { folder: \"q\", settings: ReadSettings { form: Null, back: false, from: Some(\"7\"), limit: Some(2), last: None, since: None, until: None }, seconds: None }",
    ),
    (
        "cq|read|q|--follow|--since|20241004|--text",
        "Follow { folder: \"q\", settings: ReadSettings { form: Text, back: false, from: None, limit: None, last: None, since: Some(\"20241004\"), until: None }, seconds: None }",
    ),
    (
        "cq|read|q|--follow|--back",
        "the argument '--follow' cannot be used with '--back'",
    ),
    (
        "cq|read|q|--back|--follow|--for|1",
        "the argument '--back' cannot be used with '--follow'",
    ),
    (
        "cq|read|q|--for|1",
        "error: read: give '--for SECONDS' with '--follow', and '--follow' without '--back'\n",
    ),
    (
        "cq|read|q|--for|1|--back",
        "error: read: give '--for SECONDS' with '--follow', and '--follow' without '--back'\n",
    ),
    (
        "cq|read|q|--follow|--for|0",
        "invalid value '0' for '--for <SECONDS>': 0 is not in 1..=4294967295",
    ),
    (
        "cq|read|q|--follow|--for|4294967296",
        "4294967296 is not in 1..=4294967295",
    ),
    (
        "cq|read|q|--follow|--for",
        "a value is required for '--for <SECONDS>'",
    ),
    (
        "cq|read|q|--follow|--follow",
        "'--follow' cannot be used multiple times",
    ),
    (
        "cq|read|q|--follow=yes",
        "unexpected value 'yes' for '--follow'",
    ),
    ("cq|read|--help", "Usage: cq read [OPTIONS] <DIR>"),
];

#[test]
fn parses_the_words_of_a_reader(rt: HostRuntime) -> Result<(), Fail> {
    expect(rt.alloc(), &READERS)
}

/// Arguments of the commands that make a queue, and write and take messages, each line with what it is. Those of `init` are above.
static WRITERS: [(&str, &str); 59] = [
    (
        "cq|new|q",
        "New { folder: \"q\", settings: NewSettings { roll: None, cells: None, cycles: None, names: [] } }",
    ),
    (
        "cq|new|q|b|a|b",
        "New { folder: \"q\", settings: NewSettings { roll: None, cells: None, cycles: None, names: [\"b\", \"a\", \"b\"] } }",
    ),
    (
        "cq|new|--roll|weekly|q|reader|--cells|1|--cycles|64",
        "New { folder: \"q\", settings: NewSettings { roll: Some(\"weekly\"), cells: Some(1), cycles: Some(64), names: [\"reader\"] } }",
    ),
    (
        "cq|new|q|--cycles=1|--cells=1048576|--roll=|--|-a",
        "New { folder: \"q\", settings: NewSettings { roll: Some(\"\"), cells: Some(1048576), cycles: Some(1), names: [\"-a\"] } }",
    ),
    ("cq|new", "<DIR>"),
    ("cq|new|q|-a", "unexpected argument '-a'"),
    (
        "cq|new|q|--cells|0",
        "invalid value '0' for '--cells <CELLS>': 0 is not in 1..=1048576",
    ),
    (
        "cq|new|q|--cells|1048577",
        "invalid value '1048577' for '--cells <CELLS>'",
    ),
    (
        "cq|new|q|--cycles|0",
        "invalid value '0' for '--cycles <N>': 0 is not in 1..=64",
    ),
    (
        "cq|new|q|--cycles|65",
        "invalid value '65' for '--cycles <N>'",
    ),
    (
        "cq|new|q|--roll|daily|--roll|hourly",
        "'--roll <ROLL>' cannot be used multiple times",
    ),
    ("cq|new|--help", "Usage: cq new [OPTIONS] <DIR> [NAMES]..."),
    (
        "cq|write|q|18446744073709551615",
        "Write { folder: \"q\", moment: 18446744073709551615 }",
    ),
    (
        "cq|write|ein Ordner für Ähren|0",
        "Write { folder: \"ein Ordner für Ähren\", moment: 0 }",
    ),
    ("cq|write|q", "<MOMENT>"),
    ("cq|write|q|1|2", "unexpected argument '2'"),
    ("cq|write|q|-1", "unexpected argument '-1'"),
    (
        "cq|write|q|18446744073709551616",
        "invalid value '18446744073709551616' for '<MOMENT>'",
    ),
    (
        "cq|write|q|18446744073709551616",
        "': number too large to fit in target type. MOMENT is a number, or 'now'\n",
    ),
    (
        "cq|write|q|x",
        "error: invalid value 'x' for '<MOMENT>': invalid digit found in string. MOMENT is a number, or 'now'\n",
    ),
    (
        "cq|write|q|--|-1",
        "error: invalid value '-1' for '<MOMENT>': invalid digit found in string. MOMENT is a number, or 'now'\n",
    ),
    (
        "cq|write|q|",
        "error: invalid value '' for '<MOMENT>': cannot parse integer from empty string. MOMENT is a number, or 'now'\n",
    ),
    ("cq|write|q|Now", "invalid value 'Now' for '<MOMENT>'"),
    ("cq|write|q|now ", "invalid value 'now ' for '<MOMENT>'"),
    ("cq|write|q|+", "invalid value '+' for '<MOMENT>'"),
    ("cq|write|q|+007", "Write { folder: \"q\", moment: 7 }"),
    (
        "cq|write|q|now",
        "WriteBy { folder: \"q\", settings: WriteSettings { moment: None, form: Lines } }",
    ),
    (
        "cq|write|now|now|--null",
        "WriteBy { folder: \"now\", settings: WriteSettings { moment: None, form: Null } }",
    ),
    (
        "cq|write|--whole|q|now",
        "WriteBy { folder: \"q\", settings: WriteSettings { moment: None, form: Whole } }",
    ),
    (
        "cq|write|q|--null|0",
        "WriteBy { folder: \"q\", settings: WriteSettings { moment: Some(0), form: Null } }",
    ),
    (
        "cq|write|q|18446744073709551615|--whole",
        "WriteBy { folder: \"q\", settings: WriteSettings { moment: Some(18446744073709551615), form: Whole } }",
    ),
    (
        "cq|write|q|0|--null|--whole",
        "the argument '--null' cannot be used with '--whole'",
    ),
    (
        "cq|write|q|now|--whole|--null",
        "the argument '--whole' cannot be used with '--null'",
    ),
    ("cq|write|q|x|--null", "invalid value 'x' for '<MOMENT>'"),
    ("cq|write|q|0|--null=1", "unexpected value '1' for '--null'"),
    ("cq|write|q|--null", "<MOMENT>"),
    (
        "cq|write|--help",
        "Usage: cq write [OPTIONS] <DIR> <MOMENT>",
    ),
    (
        "cq|log|q|--syncs|0",
        "Log { folder: \"q\", settings: LogSettings { seconds: None, syncs: Some(0), checkpoint: None } }",
    ),
    (
        "cq|log|q|--for|1|--syncs|2|--checkpoint|4294967295",
        "Log { folder: \"q\", settings: LogSettings { seconds: Some(1), syncs: Some(2), checkpoint: Some(4294967295) } }",
    ),
    (
        "cq|log|q|--for|0",
        "invalid value '0' for '--for <SECONDS>'",
    ),
    (
        "cq|log|q|--syncs|3",
        "invalid value '3' for '--syncs <SYNCS>'",
    ),
    (
        "cq|log|q|--checkpoint|4294967296",
        "invalid value '4294967296' for '--checkpoint <BYTES>'",
    ),
    ("cq|log", "<DIR>"),
    ("cq|log|q|now", "unexpected argument 'now'"),
    ("cq|log|--help", "Usage: cq log [OPTIONS] <DIR>"),
    (
        "cq|take|q|reader",
        "Take { folder: \"q\", name: \"reader\" }",
    ),
    ("cq|take|q", "<NAME>"),
    ("cq|take|q|r|s", "unexpected argument 's'"),
    (
        "cq|take|q|reader|--limit|4294967295",
        "TakeBy { folder: \"q\", name: \"reader\", settings: TakeSettings { limit: Some(4294967295), peek: false, wait: None } }",
    ),
    (
        "cq|take|--peek|q|reader",
        "TakeBy { folder: \"q\", name: \"reader\", settings: TakeSettings { limit: None, peek: true, wait: None } }",
    ),
    (
        "cq|take|q|--limit=1|reader|--peek",
        "TakeBy { folder: \"q\", name: \"reader\", settings: TakeSettings { limit: Some(1), peek: true, wait: None } }",
    ),
    (
        "cq|take|q|reader|--limit|0",
        "invalid value '0' for '--limit <N>'",
    ),
    (
        "cq|take|q|reader|--limit|4294967296",
        "invalid value '4294967296' for '--limit <N>'",
    ),
    (
        "cq|take|q|reader|--wait|1",
        "TakeBy { folder: \"q\", name: \"reader\", settings: TakeSettings { limit: None, peek: false, wait: Some(1) } }",
    ),
    (
        "cq|take|--wait=4294967295|q|--limit|2|reader|--peek",
        "TakeBy { folder: \"q\", name: \"reader\", settings: TakeSettings { limit: Some(2), peek: true, wait: Some(4294967295) } }",
    ),
    (
        "cq|take|q|reader|--wait|0",
        "invalid value '0' for '--wait <SECONDS>'",
    ),
    (
        "cq|take|q|reader|--wait|4294967296",
        "invalid value '4294967296' for '--wait <SECONDS>'",
    ),
    (
        "cq|take|q|reader|--wait",
        "a value is required for '--wait <SECONDS>'",
    ),
    ("cq|take|--help", "Usage: cq take [OPTIONS] <DIR> <NAME>"),
];

#[test]
fn parses_the_words_of_a_writer_and_a_taker(rt: HostRuntime) -> Result<(), Fail> {
    expect(rt.alloc(), &WRITERS)
}

/// Arguments of the other commands on a folder, each line with what it is.
static OTHERS: [(&str, &str); 58] = [
    (
        "cq|drop|q|20009",
        "DropBefore { folder: \"q\", cycle: 20009 }",
    ),
    ("cq|drop|q", "<CYCLE>"),
    (
        "cq|drop|q|20241009",
        "DropBefore { folder: \"q\", cycle: 20241009 }",
    ),
    (
        "cq|drop|q|18446744073709551616",
        "invalid value '18446744073709551616' for '<CYCLE>'",
    ),
    ("cq|drop|--help", "Usage: cq drop <DIR> <CYCLE>"),
    (
        "cq|trim|q",
        "Trim { folder: \"q\", settings: TrimSettings { keep: None, before: None, force: false, dry_run: false } }",
    ),
    (
        "cq|trim|q|--keep|30|--dry-run",
        "Trim { folder: \"q\", settings: TrimSettings { keep: Some(30), before: None, force: false, dry_run: true } }",
    ),
    (
        "cq|trim|--force|q|--before|@1728086400000",
        "Trim { folder: \"q\", settings: TrimSettings { keep: None, before: Some(\"@1728086400000\"), force: true, dry_run: false } }",
    ),
    (
        "cq|trim|q|--keep|4294967295|--before|20241004-13",
        "Trim { folder: \"q\", settings: TrimSettings { keep: Some(4294967295), before: Some(\"20241004-13\"), force: false, dry_run: false } }",
    ),
    ("cq|trim|q|--keep|0", "invalid value '0' for '--keep <N>'"),
    (
        "cq|trim|q|--keep|4294967296",
        "invalid value '4294967296' for '--keep <N>'",
    ),
    ("cq|trim", "<DIR>"),
    ("cq|trim|q|20005", "unexpected argument '20005'"),
    ("cq|trim|--help", "Usage: cq trim [OPTIONS] <DIR>"),
    ("cq|name|q|list", "Names { folder: \"q\", change: List }"),
    (
        "cq|name|q|add|reader",
        "Names { folder: \"q\", change: Add { name: \"reader\", at: None } }",
    ),
    (
        "cq|name|--at|@1728086400000|q|add|reader",
        "Names { folder: \"q\", change: Add { name: \"reader\", at: Some(\"@1728086400000\") } }",
    ),
    (
        "cq|name|q|remove|reader",
        "Names { folder: \"q\", change: Remove { name: \"reader\" } }",
    ),
    (
        "cq|name|q|move|reader|--to|20241004",
        "Names { folder: \"q\", change: Move { name: \"reader\", to: \"20241004\" } }",
    ),
    ("cq|name|q", "<ACTION>"),
    ("cq|name|q|rename|a", "name: after DIR give one of 'list'"),
    ("cq|name|q|list|a", "name: after DIR give one of 'list'"),
    (
        "cq|name|q|list|--at|a",
        "name: after DIR give one of 'list'",
    ),
    ("cq|name|q|add", "name: after DIR give one of 'list'"),
    (
        "cq|name|q|add|a|--to|b",
        "name: after DIR give one of 'list'",
    ),
    (
        "cq|name|q|remove|a|--at|b",
        "name: after DIR give one of 'list'",
    ),
    ("cq|name|q|move|a", "name: after DIR give one of 'list'"),
    (
        "cq|name|q|move|a|--at|b|--to|b",
        "name: after DIR give one of 'list'",
    ),
    ("cq|name|q|add|a|b", "unexpected argument 'b'"),
    (
        "cq|name|--help",
        "Usage: cq name [OPTIONS] <DIR> <ACTION> [NAME]",
    ),
    ("cq|check|q", "Check { folder: \"q\" }"),
    ("cq|check| ", "Check { folder: \" \" }"),
    ("cq|check", "<DIR>"),
    ("cq|check|q|r", "unexpected argument 'r'"),
    ("cq|check|q|-x", "unexpected argument '-x'"),
    ("cq|stat|q", "Stat { folder: \"q\", json: false }"),
    ("cq|stat|--json|q", "Stat { folder: \"q\", json: true }"),
    ("cq|stat", "<DIR>"),
    ("cq|stat|q|--json=1", "unexpected value '1' for '--json'"),
    ("cq|stat|--help", "Usage: cq stat [OPTIONS] <DIR>"),
    (
        "cq|dump|q|2024 01.cq",
        "Dump { folder: \"q\", file: \"2024 01.cq\" }",
    ),
    ("cq|dump|q", "<FILE>"),
    ("cq|dump|q|r|s", "unexpected argument 's'"),
    ("cq|dump|--help", "Usage: cq dump <DIR> <FILE>"),
    (
        "cq|salvage|q|../x",
        "Salvage { folder: \"q\", file: \"../x\" }",
    ),
    ("cq|salvage|q", "<FILE>"),
    ("cq|salvage|q|r|s", "unexpected argument 's'"),
    ("cq|salvage|--help", "Usage: cq salvage <DIR> <FILE>"),
    (
        "cq|repair|q|20241004.cqi",
        "Repair { folder: \"q\", file: \"20241004.cqi\", dry_run: false }",
    ),
    (
        "cq|repair|--dry-run|q|../x",
        "Repair { folder: \"q\", file: \"../x\", dry_run: true }",
    ),
    ("cq|repair|q", "<FILE>"),
    ("cq|repair|q|r|s", "unexpected argument 's'"),
    (
        "cq|repair|q|r|--dry-run=1",
        "unexpected value '1' for '--dry-run'",
    ),
    (
        "cq|repair|--help",
        "Usage: cq repair [OPTIONS] <DIR> <FILE>",
    ),
    ("cq|migrate|q", "Migrate { folder: \"q\" }"),
    ("cq|migrate", "<DIR>"),
    ("cq|migrate|q|r", "unexpected argument 'r'"),
    ("cq|migrate|--help", "Usage: cq migrate <DIR>"),
];

#[test]
fn parses_the_words_of_other_commands(rt: HostRuntime) -> Result<(), Fail> {
    expect(rt.alloc(), &OTHERS)
}

// Made by docs/advice.py from docs/ERRORS.md: change that file, and run it again.

/// The faults of `cq`, with what they mean and what to do. Each is three lines: the part of its text that is the same in each
/// message, its text, and what is printed below it, with tabs in place of line feeds.
pub(crate) const TABLE: &str = "\
want of memory\n\
want of memory\n\
\t  The system refused memory, at any point.\t  What to do: Free memory, or raise the process's limit.\n\
BadIndex\n\
BadIndex\n\
\t  read: --from is not 16 digits of 0-9 and a-f. read, trim, name: W is no index, no moment and\t  no name of a cycle.\t  What to do: Give an index as write, read and cycle print it. For W also @ and a moment, or\t  the name of an image without .cqi.\n\
folder fault\n\
folder fault\n\
\t  DIR is missing, is no folder, may not be listed, or its device fails. Or its queue.save is\t  no record, or a save that was cut short cannot be finished.\t  What to do: Correct DIR, make it with mkdir or new, or get the right to read and write it.\t  Remove a faulty queue.save.\n\
queue there already\n\
queue there already\n\
\t  new, init: DIR has a queue.cqc, of any kind.\t  What to do: Use it, or another folder.\n\
no queue here\n\
no queue here\n\
\t  DIR has no queue.cqc.\t  What to do: Correct DIR, or make a queue with init.\n\
file fault:\n\
file fault: FILE\n\
\t  FILE may not be read, or DIR not be written. FILE is a folder, a link or a FIFO, or went\t  after DIR was listed. The device is full or fails.\t  What to do: Get the right, put the file itself there, or make room.\n\
file too large:\n\
file too large: FILE\n\
\t  queue.cqc or an image has more than 8,388,608 bytes, which cq never writes.\t  What to do: Restore FILE.\n\
queue.cqc: line\n\
queue.cqc: line N\n\
\t  The line is not what the format has there: another word, a second space, a carriage return,\t  a leading zero, no LF. Or the text ends before it.\t  What to do: Correct the line, or restore queue.cqc.\n\
BadShape\n\
BadShape\n\
\t  CELLS, COUNT or SPACING is outside the limits, in init or queue.cqc. migrate: CELLS + 3 is.\t  What to do: Give values within them. A queue with too many cells for migrate is read in\t  version 1; go on in a new one. For queue.cqc, od -A n -t u4 -j 16 -N 12 FILE prints COUNT,\t  SPACING and CELLS of an image.\n\
BadConfig\n\
BadConfig\n\
\t  ROLL, EPOCH, CYCLES, CYCLES * CELLS or NAMES is outside the limits, in init or queue.cqc; or\t  the floor there is above 2,147,483,646. migrate: CYCLES * (CELLS + 3) is above 4,194,304.\t  What to do: Give values within the limits, or correct queue.cqc. Before migrate lower\t  cycles.\n\
no such file:\n\
no such file: FILE\n\
\t  dump, salvage, repair: DIR has no FILE, or it does not end with .cqi.\t  What to do: Give a name as check prints it, without its folder.\n\
: bad cycle name\n\
FILE: bad cycle name\n\
\t  The part before .cqi names no cycle of the queue: not the digits of its roll, no such date\t  or time, before the epoch, or past the last cycle.\t  What to do: Give FILE its name again, or move it away. Where every image is refused, correct\t  roll or epoch in queue.cqc.\n\
: Cut at\n\
FILE: Cut at P\n\
\t  FILE ends within the record at P, or where a message must follow meta-data.\t  What to do: Restore FILE; salvage prints the messages before P.\n\
: BadHeader at\n\
FILE: BadHeader at P\n\
\t  The four bytes at P are no header. They were changed, or the length in the header before\t  was.\t  What to do: Restore FILE.\n\
: Unfinished at\n\
FILE: Unfinished at P\n\
\t  The header at P is 0, as where zeros follow the last record, or is that of a record being\t  written. Or the end of data comes where a message must follow meta-data.\t  What to do: Restore FILE.\n\
: AfterEnd at\n\
FILE: AfterEnd at P\n\
\t  Bytes follow the end of data.\t  What to do: Cut them off: truncate -s P FILE.\n\
: WrongStore at\n\
FILE: WrongStore at P\n\
\t  At 0: FILE does not begin with a store record of the version in queue.cqc. At 4 or 8: it is\t  of no format or version known here. At 12: FILE is the image of another cycle. At 16, 20 or\t  24: the count, the spacing or the cells in queue.cqc differ; from 28 on, the epoch or the\t  roll.\t  What to do: At 12 give FILE its name again. From 16 on, correct queue.cqc where every image\t  is refused so. At 0, where queue.cqc is of version 1 and FILE of version 2, run migrate.\t  Otherwise restore FILE.\n\
: WrongTable at\n\
FILE: WrongTable at P\n\
\t  A table is missing at P or has not COUNT entries, or meta-data comes where a message must\t  be. Or the entry at P does not fit the messages.\t  What to do: Restore FILE.\n\
: OverShape at\n\
FILE: OverShape at P\n\
\t  The message at P does not fit: the cycle has too few cells, or COUNT * COUNT * SPACING\t  messages come before it.\t  What to do: Restore FILE.\n\
: BadPadding at\n\
FILE: BadPadding at P\n\
\t  The byte at P, between a message and the next cell, is not 0.\t  What to do: Set it to 0, or restore FILE.\n\
: wrong end\n\
FILE: wrong end\n\
\t  An image before the last one is open, or the last one is ended: one is gone, or older than\t  the others.\t  What to do: Restore the images of one time. Where they are lost, make the last one open by\t  truncate -s -4 FILE, and an earlier one ended by printf '\\0\\0\\0\\300' >> FILE.\n\
BadContents\n\
BadContents\n\
\t  There are more images than cycles. Or the position of a name is above the end, or the floor\t  above the last cycle. Or there is no image, and one of them is not 0.\t  What to do: Restore images and queue.cqc of one time, or correct cycles, positions or floor.\n\
OldVersion\n\
OldVersion\n\
\t  write, take without --peek, drop, trim, repair, and name but its list: the folder is of\t  version 1.\t  What to do: Make version 2 of it with migrate.\n\
NoSuchName\n\
NoSuchName\n\
\t  take, name remove, name move: the queue has no such NAME.\t  What to do: Give a name that name DIR list prints, or add it with name DIR add NAME.\n\
bad name:\n\
bad name: ..\n\
\t  name add: NAME is empty, has more than 32 bytes, or a byte that no name may have.\t  What to do: Give a name of 1 to 32 bytes of A-Z, a-z, 0-9, _, - and ..\n\
name there already\n\
name there already\n\
\t  name add: the queue has NAME.\t  What to do: Take under it, or give it another position with name move.\n\
too many names:\n\
too many names: ..\n\
\t  name add: the queue has 16 names.\t  What to do: Remove one with name remove.\n\
past the end, which is\n\
past the end, which is INDEX\n\
\t  name add, name move: the position that W means is above the end of the queue.\t  What to do: Give one that is at most INDEX. Without --at, name add takes the end.\n\
nothing to repair:\n\
nothing to repair: ..\n\
\t  repair: FILE has no fault.\t  What to do: Use it as it is. check says which images have a fault. For wrong end see there.\n\
there already:\n\
there already: ..\n\
\t  repair: the old file would be FILE and .bad, and a file with other bytes has that name.\t  What to do: Move that file away, and repair FILE again.\n\
no fault has these words:\n\
no fault has these words: ..\n\
\t  explain: no text of a fault has WORDS in it.\t  What to do: Give fewer words, or none to see them all.\n\
this program has no 'log'\n\
this program has no 'log' ..\n\
\t  log, race: they are not in the program that the launcher ./cq builds first.\t  What to do: Run them by ./cq log and ./cq race, which build the whole program, or install\t  that with ./install.\n\
read fault\n\
read fault\n\
\t  Standard input is closed, a folder, or fails; or 16,777,216 reads found no end. log --for:\t  the clock could not be read, or no thread started to read the input.\t  What to do: Give a file, or a pipe that ends.\n\
input too long\n\
input too long\n\
\t  Standard input has over 129,000 bytes for echo, or 8,388,608 for write.\t  What to do: Use several commands.\n\
messages left:\n\
messages left: NAME\n\
\t  trim: NAME has messages left in the cycles that would be dropped.\t  What to do: Let NAME take them, keep more cycles, or drop them with --force.\n\
BadMoment\n\
BadMoment\n\
\t  MOMENT, or that in W of read, trim or name, is outside the limits.\t  What to do: Give milliseconds of Unix time, as $(date +%s%3N), and not seconds.\n\
: too many\n\
line N: too many\n\
\t  echo: it is after the 1,000th.\t  What to do: Use several commands.\n\
: too long\n\
line N: too long\n\
\t  echo: it has more than 128 bytes.\t  What to do: Shorten it.\n\
: BadRoom\n\
line N: BadRoom\n\
\t  It is empty.\t  What to do: Leave empty lines out, as sed '/^$/d' does.\n\
: NoCycleLeft\n\
line N: NoCycleLeft\n\
\t  write: the cycle of MOMENT is above the last one, and there are as many images as cycles.\t  What to do: Make place with trim, raise cycles in queue.cqc, or go on in a new queue.\n\
: CycleFull\n\
line N: CycleFull\n\
\t  write: the line does not fit after what is in its cycle, or COUNT * COUNT * SPACING messages\t  come before it.\t  What to do: Give a MOMENT in a later cycle, or fewer lines. A line that does not fit into an\t  empty cycle needs more cells.\n\
the clock could not be read, or\n\
the clock could not be read, or ..\n\
\t  log, write DIR now: the clock failed, or is set before 1970.\t  What to do: Set the clock.\n\
gave up\n\
gave up\n\
\t  race: a worker was not let in, used up its calls, or a message was refused. No command line\t  causes this.\t  What to do: Report it.\n\
write fault\n\
write fault\n\
\t  Standard output is closed or full, or nobody reads it.\t  What to do: Mend the output.\n\
images at fault\n\
images at fault\n\
\t  check: one of its lines has a fault.\t  What to do: See that fault.\n\
a queue is live in this folder:\n\
a queue is live in this folder: ..\n\
\t  new, init, write, log, take without --peek, drop, trim, migrate, repair without --dry-run,\t  and name but its list: a process has the queue open.\t  What to do: Wait until that process closes the queue. The other commands read it meanwhile.\n\
the log is not opened:\n\
the log is not opened: ..\n\
\t  The same commands: queue.log may not be written, or could not be locked.\t  What to do: Get the right.\n\
this folder has a log, queue.log, and no queue:\n\
this folder has a log, queue.log, and no queue: ..\n\
\t  The same commands: DIR has no queue.cqc.\t  What to do: Restore queue.cqc and the images, or move queue.log away.\n\
file fault: queue.log\n\
file fault: queue.log\n\
\t  queue.log may not be read, or is a folder or a link.\t  What to do: Get the right, or put the file itself there.\n\
the log has more than 1073741824 bytes:\n\
the log has more than 1073741824 bytes: ..\n\
\t  It is too long to be played.\t  What to do: Close the queue if it is live, with a version that plays longer logs. Else keep\t  the log, and move it away.\n\
the file is no log of a queue:\n\
the file is no log of a queue: ..\n\
\t  The log was changed, or is of another version.\t  What to do: Use the version that wrote it, restore the file, or move it away.\n\
a log of version\n\
a log of version N: ..\n\
\t  The log was changed, or is of another version.\t  What to do: Use the version that wrote it, restore the file, or move it away.\n\
a log that is written in way\n\
a log that is written in way N: ..\n\
\t  The log was changed, or is of another version.\t  What to do: Use the version that wrote it, restore the file, or move it away.\n\
the head of the log is cut short:\n\
the head of the log is cut short: ..\n\
\t  The log was changed, or is of another version.\t  What to do: Use the version that wrote it, restore the file, or move it away.\n\
bytes after the head of the log:\n\
bytes after the head of the log: ..\n\
\t  The log was changed, or is of another version.\t  What to do: Use the version that wrote it, restore the file, or move it away.\n\
the settings of the log:\n\
the settings of the log: ..\n\
\t  The log was changed, or is of another version.\t  What to do: Use the version that wrote it, restore the file, or move it away.\n\
the log is of a queue with other settings:\n\
the log is of a queue with other settings: ..\n\
\t  It is the log of another queue, or images or queue.cqc were changed while it had messages of\t  its own, as by the package for Rust.\t  What to do: Restore the files of one time, or move queue.log away.\n\
the log goes on from\n\
the log goes on from ..\n\
\t  It is the log of another queue, or images or queue.cqc were changed while it had messages of\t  its own, as by the package for Rust.\t  What to do: Restore the files of one time, or move queue.log away.\n\
of the log:\n\
frame N of the log: ..\n\
\t  The log was changed.\t  What to do: Restore it, or move it away.\n\
the log gives what no queue with these settings holds:\n\
the log gives what no queue with these settings holds: ..\n\
\t  The log was changed.\t  What to do: Restore it, or move it away.\n\
the time of this machine's clock lies in no cycle of this queue:\n\
the time of this machine's clock lies in no cycle of this queue: ..\n\
\t  No cycle has begun, and the first one would have to begin before EPOCH, or after the last\t  cycle of time.\t  What to do: Set the clock, or make the queue with another EPOCH.\n\
the log was changed while the queue was opened:\n\
the log was changed while the queue was opened: ..\n\
\t  Another program wrote to queue.log. Or the save before it could not rename a file, for a\t  fault of the device or for lack of memory. The next start does that.\t  What to do: Start it again.\n\
the log could not be begun:\n\
the log could not be begun: ..\n\
\t  queue.log could not be written or synced: the disk is full, or failed. No sync that failed\t  is made again.\t  What to do: Make room, or mend the disk. Then start it again: all lines with an index are\t  there.\n\
the log has stopped:\n\
the log has stopped: ..\n\
\t  queue.log could not be written or synced: the disk is full, or failed. No sync that failed\t  is made again.\t  What to do: Make room, or mend the disk. Then start it again: all lines with an index are\t  there.\n\
too much came for one frame:\n\
too much came for one frame: ..\n\
\t  More came than a log can hold.\t  What to do: Start it again: that begins a new log.\n\
the log is full:\n\
the log is full: ..\n\
\t  More came than a log can hold.\t  What to do: Start it again: that begins a new log.\n\
: the images are not saved yet, and the queue goes on\n\
..: the images are not saved yet, and the queue goes on\n\
\t  A checkpoint could not read the folder or its log, or a growth was refused. No file changed.\t  It is no fault of log.\t  What to do: Mend what the text before it says. The next checkpoint tries again.\n\
the folder holds something else than the queue:\n\
the folder holds something else than the queue: ..\n\
\t  Files of the folder were replaced while the queue was open.\t  What to do: Find out which files are the right ones.\n\
: too long\n\
line N: too long\n\
\t  The line has more than 4,194,304 bytes so far.\t  What to do: Give shorter lines.\n\
out of memory:\n\
out of memory: ..\n\
\t  A growth was refused.\t  What to do: Start it again with more memory. All lines with an index are there.\n\
: all lines with an index are in queue.log, and once this is mended\n\
..: all lines with an index are in queue.log, and once this is mended ..\n\
\t  The queue was closed, and the log could not be saved into the images.\t  What to do: Mend what the text before it says, and start it again.\n\
";

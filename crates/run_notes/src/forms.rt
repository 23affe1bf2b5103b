//! The forms of the commands, of their options and of the lines that they read. (bench/words.py writes this from
//! docs/commands.txt.)

/// A command and the words that it has behind the folder.
#[derive(Clone, Copy)]
pub(crate) struct Form {
    pub(crate) command: &'static str,
    pub(crate) form: &'static str,
    pub(crate) example: &'static str,
}

/// An option that takes a value, and what it takes: the whole numbers from the first to the second, or a text.
#[derive(Clone, Copy)]
pub(crate) struct Taken {
    pub(crate) option: &'static str,
    pub(crate) value: &'static str,
    pub(crate) example: &'static str,
    pub(crate) range: Option<(u32, u32)>,
}

/// A line that some commands read.
#[derive(Clone, Copy)]
pub(crate) struct LineForm {
    pub(crate) commands: &'static str,
    pub(crate) form: &'static str,
}

pub(crate) const FORMS: [Form; 12] = [
    Form {
        command: "run",
        form: "run [--cache N] [--forks N]",
        example: "run",
    },
    Form {
        command: "load",
        form: "load --columns A,B [--forks N]",
        example: "load --columns lon,lat",
    },
    Form {
        command: "explain",
        form: "explain [--cache N]",
        example: "explain",
    },
    Form {
        command: "check",
        form: "check",
        example: "check",
    },
    Form {
        command: "generate",
        form: "generate --docs N --seed N [--forks N]",
        example: "generate --docs 1000 --seed 1",
    },
    Form {
        command: "session",
        form: "session [--cache N] [--forks N]",
        example: "session",
    },
    Form {
        command: "count",
        form: "count [--cache N]",
        example: "count",
    },
    Form {
        command: "ranges",
        form: "ranges [--cache N] [--forks N]",
        example: "ranges",
    },
    Form {
        command: "batch",
        form: "batch [--forks N] [--merge]",
        example: "batch",
    },
    Form {
        command: "export",
        form: "export [--as-ranges]",
        example: "export",
    },
    Form {
        command: "info",
        form: "info",
        example: "info",
    },
    Form {
        command: "clean",
        form: "clean",
        example: "clean",
    },
];

pub(crate) const TAKEN: [Taken; 6] = [
    Taken {
        option: "--cache",
        value: "how many pages of 4,096 bytes are kept, 1 to 65,536",
        example: "--cache 4096",
        range: Some((1, 65_536)),
    },
    Taken {
        option: "--forks",
        value: "how many levels of a build run in two threads each, 0 to 6",
        example: "--forks 2",
        range: Some((0, 6)),
    },
    Taken {
        option: "--columns",
        value: "1 to 8 names of columns, parted by commas",
        example: "--columns lon,lat",
        range: None,
    },
    Taken {
        option: "--docs",
        value: "how many documents, 1 to 1,000,000",
        example: "--docs 1000",
        range: Some((1, 1_000_000)),
    },
    Taken {
        option: "--seed",
        value: "1 to 2,147,483,646",
        example: "--seed 1",
        range: Some((1, 2_147_483_646)),
    },
    Taken {
        option: "--wait",
        value: "how long to wait where another run holds the folder, 0 to 3,600",
        example: "--wait 10",
        range: Some((0, 3600)),
    },
];

pub(crate) const LINES: [LineForm; 34] = [
    LineForm {
        commands: "run session",
        form: "create D [leaf B]",
    },
    LineForm {
        commands: "run session",
        form: "add C1 .. CD",
    },
    LineForm {
        commands: "run session",
        form: "delete N",
    },
    LineForm {
        commands: "run session",
        form: "delete box LO HI",
    },
    LineForm {
        commands: "run session",
        form: "box [@NAME] LO HI",
    },
    LineForm {
        commands: "run session",
        form: "polygon [@NAME] JSON",
    },
    LineForm {
        commands: "run session",
        form: "nearest [@NAME] K C1 .. CD",
    },
    LineForm {
        commands: "run session",
        form: "snapshot NAME",
    },
    LineForm {
        commands: "run session",
        form: "release NAME",
    },
    LineForm {
        commands: "run session",
        form: "flush",
    },
    LineForm {
        commands: "run session",
        form: "merge",
    },
    LineForm {
        commands: "run session",
        form: "merge begin POSITIONS",
    },
    LineForm {
        commands: "run session",
        form: "merge end",
    },
    LineForm {
        commands: "run session",
        form: "commit",
    },
    LineForm {
        commands: "run session",
        form: "reopen",
    },
    LineForm {
        commands: "ranges",
        form: "create R [leaf B]",
    },
    LineForm {
        commands: "ranges",
        form: "add LO HI",
    },
    LineForm {
        commands: "ranges",
        form: "delete N",
    },
    LineForm {
        commands: "ranges",
        form: "intersects [@NAME] LO HI",
    },
    LineForm {
        commands: "ranges",
        form: "within [@NAME] LO HI",
    },
    LineForm {
        commands: "ranges",
        form: "contains [@NAME] LO HI",
    },
    LineForm {
        commands: "ranges",
        form: "snapshot NAME",
    },
    LineForm {
        commands: "ranges",
        form: "release NAME",
    },
    LineForm {
        commands: "ranges",
        form: "flush",
    },
    LineForm {
        commands: "ranges",
        form: "merge",
    },
    LineForm {
        commands: "ranges",
        form: "merge begin POSITIONS",
    },
    LineForm {
        commands: "ranges",
        form: "merge end",
    },
    LineForm {
        commands: "ranges",
        form: "commit",
    },
    LineForm {
        commands: "ranges",
        form: "reopen",
    },
    LineForm {
        commands: "count",
        form: "points LO HI",
    },
    LineForm {
        commands: "count",
        form: "grid X STEPX Y STEPY LO HI",
    },
    LineForm {
        commands: "explain batch",
        form: "box LO HI",
    },
    LineForm {
        commands: "explain batch",
        form: "polygon JSON",
    },
    LineForm {
        commands: "explain batch",
        form: "nearest K C1 .. CD",
    },
];

// The grammar of rules, as tables: the options, the conditions and the actions.
ghost use Rattle.std.specs.Prelude.{◌≡◌, Option, is_some};
ghost use Rattle.std.specs.Option.{option_map};
ghost use Rattle.uw_rules.specs.Grammar.{action_of, action_rows, condition_of, is_of_table, kind_of_line, named, row_of};
ghost use Rattle.uw_rules.specs.GrammarSteps.{named_rows, rows_seen, row_seen};

use uw_base::texts::is;

/// The variable of a request that a pattern is matched with.
#[derive(Clone, Copy, Debug, PartialEq, Eq)]
pub enum Subject {
    PathInfo,
    HttpHost,
    RequestUri,
    QueryString,
    RemoteAddr,
}

impl Subject {
    ghost use Rattle.uw_rules.specs.Grammar.{subject_variable};

    /// The name of the variable.
    pub fn variable(self) -> &'static [u8]
        ensures { result.now ≡ subject_variable self }
    {
        match self {
            Subject::PathInfo => b"PATH_INFO",
            Subject::HttpHost => b"HTTP_HOST",
            Subject::RequestUri => b"REQUEST_URI",
            Subject::QueryString => b"QUERY_STRING",
            Subject::RemoteAddr => b"REMOTE_ADDR",
        }
    }
}

/// A table of rules.
#[derive(Clone, Copy, Debug, PartialEq, Eq)]
pub enum Table {
    /// The rules of requests.
    Requests,
    /// The rules of tasks.
    Tasks,
}

/// What a line of an option is.
#[derive(Clone, Copy, Debug, PartialEq, Eq)]
pub enum LineKind {
    /// A pattern for a subject, and an action.
    Pattern(Subject),
    /// An action that always runs.
    Always,
    /// A condition and an action, which runs where the condition holds, or where it does not.
    Condition { negated: bool },
    /// A label.
    Label,
}

/// What kind a text of a condition or an action is.
#[derive(Clone, Copy, Debug, PartialEq, Eq)]
pub enum TextKind {
    Template,
    /// A template with a `:` in it as written.
    Header,
    /// A template without a `;` in it as written.
    Undivided,
    Fixed,
    Pattern,
    /// A number below 2^64.
    Decimal,
    /// A number of an `i64`.
    Signed,
    /// The name of a cache.
    Cache,
    /// The number of an area.
    Area,
    /// At most 65,536 bytes.
    Length,
    /// The bits of a number: 8, 16, 32 or 64.
    Width,
    /// The code of a status.
    Code,
    /// The label of a later line.
    Label,
}

/// A key of an argument list.
#[derive(Clone, Copy)]
pub struct Slot {
    pub key: &'static [u8],
    pub kind: TextKind,
    pub required: bool,
}

/// What stands behind the `:` of a condition or an action.
#[derive(Clone, Copy)]
pub enum Shape {
    /// Nothing, and no `:`.
    Bare,
    /// A text that may be left out.
    Optional(TextKind),
    Whole(TextKind),
    /// Two texts, before and behind the first such byte.
    Divided(u8, TextKind, TextKind),
    /// Pairs `key=text` of these keys, joined by commas.
    Keyed(&'static [Slot]),
    /// Pairs `key=text` of any keys, joined by commas.
    Free(TextKind),
}

/// What a condition asks.
#[derive(Clone, Copy, Debug, PartialEq, Eq)]
pub enum ConditionName {
    Equal,
    StartsWith,
    EndsWith,
    Contains,
    Empty,
    Regexp,
    InCache,
}

/// What an action does.
#[derive(Clone, Copy, Debug, PartialEq, Eq)]
pub enum ActionName {
    Continue,
    Break,
    Return,
    Goto,
    Redirect,
    RedirectPermanent,
    Rewrite,
    AddVar,
    AddHeader,
    Send,
    Cache,
    CacheVar,
    CacheSet,
    CacheUpdate,
    CacheDel,
    CacheInc,
    CacheDec,
    CacheMul,
    CacheDiv,
    AreaRead,
    AreaWrite,
    AreaNum,
    AreaSet,
    AreaInc,
    AreaDec,
    AreaUpdates,
    Spool,
    SpoolEnd,
}

const IF: LineKind = LineKind::Condition { negated: false };

const IF_NOT: LineKind = LineKind::Condition { negated: true };

const OPTIONS: [(&[u8], (Table, LineKind)); 13] = [
    (
        b"route",
        (Table::Requests, LineKind::Pattern(Subject::PathInfo)),
    ),
    (
        b"route-host",
        (Table::Requests, LineKind::Pattern(Subject::HttpHost)),
    ),
    (
        b"route-uri",
        (Table::Requests, LineKind::Pattern(Subject::RequestUri)),
    ),
    (
        b"route-qs",
        (Table::Requests, LineKind::Pattern(Subject::QueryString)),
    ),
    (
        b"route-remote-addr",
        (Table::Requests, LineKind::Pattern(Subject::RemoteAddr)),
    ),
    (b"route-run", (Table::Requests, LineKind::Always)),
    (b"route-if", (Table::Requests, IF)),
    (b"route-if-not", (Table::Requests, IF_NOT)),
    (b"route-label", (Table::Requests, LineKind::Label)),
    (b"spool-run", (Table::Tasks, LineKind::Always)),
    (b"spool-if", (Table::Tasks, IF)),
    (b"spool-if-not", (Table::Tasks, IF_NOT)),
    (b"spool-label", (Table::Tasks, LineKind::Label)),
];

const KEY: Slot = Slot {
    key: b"key",
    kind: TextKind::Template,
    required: true,
};

const VALUE: Slot = Slot {
    key: b"value",
    kind: TextKind::Template,
    required: true,
};

const NAME: Slot = Slot {
    key: b"name",
    kind: TextKind::Cache,
    required: false,
};

const EXPIRES: Slot = Slot {
    key: b"expires",
    kind: TextKind::Decimal,
    required: false,
};

const AMOUNT: Slot = Slot {
    key: b"amount",
    kind: TextKind::Signed,
    required: false,
};

const CONTENT_TYPE: Slot = Slot {
    key: b"content_type",
    kind: TextKind::Template,
    required: false,
};

// The variable that takes the answer.
const VAR: Slot = Slot {
    key: b"var",
    kind: TextKind::Fixed,
    required: false,
};

const NEEDED_VAR: Slot = Slot {
    key: b"var",
    kind: TextKind::Fixed,
    required: true,
};

const AREA: Slot = Slot {
    key: b"area",
    kind: TextKind::Area,
    required: true,
};

// The place in an area.
const AT: Slot = Slot {
    key: b"at",
    kind: TextKind::Decimal,
    required: true,
};

const LEN: Slot = Slot {
    key: b"len",
    kind: TextKind::Length,
    required: true,
};

const WIDTH: Slot = Slot {
    key: b"width",
    kind: TextKind::Width,
    required: true,
};

const NUMBER: Slot = Slot {
    key: b"value",
    kind: TextKind::Decimal,
    required: true,
};

const BY: Slot = Slot {
    key: b"by",
    kind: TextKind::Decimal,
    required: false,
};

const TWO_TEMPLATES: Shape = Shape::Divided(b';', TextKind::Template, TextKind::Template);

const TO_WRITE: Shape = Shape::Keyed(&[KEY, VALUE, EXPIRES, NAME, VAR]);

const TO_CALCULATE: Shape = Shape::Keyed(&[KEY, AMOUNT, EXPIRES, NAME, VAR]);

const TO_COUNT: Shape = Shape::Keyed(&[AREA, AT, WIDTH, BY, VAR]);

const CONDITIONS: [(&[u8], ConditionName, Shape); 7] = [
    (b"equal", ConditionName::Equal, TWO_TEMPLATES),
    (b"startswith", ConditionName::StartsWith, TWO_TEMPLATES),
    (b"endswith", ConditionName::EndsWith, TWO_TEMPLATES),
    (b"contains", ConditionName::Contains, TWO_TEMPLATES),
    (
        b"empty",
        ConditionName::Empty,
        Shape::Whole(TextKind::Undivided),
    ),
    (
        b"regexp",
        ConditionName::Regexp,
        Shape::Divided(b';', TextKind::Template, TextKind::Pattern),
    ),
    (
        b"incache",
        ConditionName::InCache,
        Shape::Keyed(&[KEY, NAME]),
    ),
];

const ACTIONS: [(&[u8], ActionName, Shape); 29] = [
    (b"continue", ActionName::Continue, Shape::Bare),
    (b"last", ActionName::Continue, Shape::Bare),
    (
        b"break",
        ActionName::Break,
        Shape::Optional(TextKind::Fixed),
    ),
    (b"return", ActionName::Return, Shape::Whole(TextKind::Code)),
    (b"goto", ActionName::Goto, Shape::Whole(TextKind::Label)),
    (
        b"redirect",
        ActionName::Redirect,
        Shape::Whole(TextKind::Template),
    ),
    (
        b"redirect-permanent",
        ActionName::RedirectPermanent,
        Shape::Whole(TextKind::Template),
    ),
    (
        b"rewrite",
        ActionName::Rewrite,
        Shape::Whole(TextKind::Template),
    ),
    (
        b"addvar",
        ActionName::AddVar,
        Shape::Divided(b'=', TextKind::Fixed, TextKind::Template),
    ),
    (
        b"addheader",
        ActionName::AddHeader,
        Shape::Whole(TextKind::Header),
    ),
    (b"send", ActionName::Send, Shape::Whole(TextKind::Template)),
    (
        b"cache",
        ActionName::Cache,
        Shape::Keyed(&[KEY, CONTENT_TYPE, NAME]),
    ),
    (
        b"cachevar",
        ActionName::CacheVar,
        Shape::Keyed(&[KEY, NAME, NEEDED_VAR]),
    ),
    (b"cacheset", ActionName::CacheSet, TO_WRITE),
    (b"cacheupdate", ActionName::CacheUpdate, TO_WRITE),
    (
        b"cachedel",
        ActionName::CacheDel,
        Shape::Keyed(&[KEY, NAME, VAR]),
    ),
    (b"cacheinc", ActionName::CacheInc, TO_CALCULATE),
    (b"cachedec", ActionName::CacheDec, TO_CALCULATE),
    (b"cachemul", ActionName::CacheMul, TO_CALCULATE),
    (b"cachediv", ActionName::CacheDiv, TO_CALCULATE),
    (
        b"arearead",
        ActionName::AreaRead,
        Shape::Keyed(&[AREA, AT, LEN, NEEDED_VAR]),
    ),
    (
        b"areawrite",
        ActionName::AreaWrite,
        Shape::Keyed(&[AREA, AT, VALUE, VAR]),
    ),
    (
        b"areanum",
        ActionName::AreaNum,
        Shape::Keyed(&[AREA, AT, WIDTH, NEEDED_VAR]),
    ),
    (
        b"areaset",
        ActionName::AreaSet,
        Shape::Keyed(&[AREA, AT, WIDTH, NUMBER, VAR]),
    ),
    (b"areainc", ActionName::AreaInc, TO_COUNT),
    (b"areadec", ActionName::AreaDec, TO_COUNT),
    (
        b"areaupdates",
        ActionName::AreaUpdates,
        Shape::Keyed(&[AREA, NEEDED_VAR]),
    ),
    (b"spool", ActionName::Spool, Shape::Free(TextKind::Template)),
    (
        b"spool-end",
        ActionName::SpoolEnd,
        Shape::Whole(TextKind::Signed),
    ),
];

// The table of an option, and what a line of it is.
fn kind_in(mut rows: &[(&[u8], (Table, LineKind))], name: &[u8]) -> Option<(Table, LineKind)>
    ensures { result ≡ named (named_rows rows.entry.now) name.now }
{
    while let [row, rest @ ..] = rows {
        if is(row.0, name) {
            return Some(row.1);
        }
        rows = rest;
    }
    None
}

/// The table of an option, and what a line of it is.
pub fn kind_of_line(option: &[u8]) -> Option<(Table, LineKind)>
    ensures { result ≡ kind_of_line option.now }
{
    kind_in(&OPTIONS, option)
}

/// Whether an option of the configuration is a rule's.
pub fn is_rule_option(option: &[u8]) -> bool
    ensures { result ≡ is_some (kind_of_line option.now) }
{
    kind_of_line(option).is_some()
}

/// The table of an option of the configuration, if it is a rule's.
pub fn table_of_option(option: &[u8]) -> Option<Table>
    ensures { result ≡ option_map (λ known. known.0) (kind_of_line option.now) }
{
    match kind_of_line(option) {
        Some((table, _)) => Some(table),
        None => None,
    }
}

// The row of a name.
fn row_in<N: Copy>(mut rows: &[(&[u8], N, Shape)], name: &[u8]) -> Option<(N, Shape)>
    ensures { row_seen result ≡ row_of (rows_seen rows.entry.now) name.now }
{
    while let [row, rest @ ..] = rows {
        if is(row.0, name) {
            return Some((row.1, row.2));
        }
        rows = rest;
    }
    None
}

/// What a condition of this name asks, and what stands behind its `:`.
pub fn condition_of(name: &[u8]) -> Option<(ConditionName, Shape)>
    ensures { row_seen result ≡ condition_of name.now }
{
    row_in(&CONDITIONS, name)
}

// Whether the action is one of the table's.
fn is_of_table(table: Table, action: ActionName) -> bool
    ensures { result ≡ is_of_table table action }
{
    match table {
        Table::Requests => action != ActionName::SpoolEnd,
        Table::Tasks => !matches!(
            action,
            ActionName::Break
                | ActionName::Return
                | ActionName::Redirect
                | ActionName::RedirectPermanent
                | ActionName::AddHeader
                | ActionName::Send
                | ActionName::Cache
        ),
    }
}

// The row of an action, whatever its table.
fn row_of_action(name: &[u8]) -> Option<(ActionName, Shape)>
    ensures { row_seen result ≡ row_of action_rows name.now }
{
    row_in(&ACTIONS, name)
}

/// What an action of this name does in a table, and what stands behind its `:`.
#[tactic(auto, unfolding(crate::specs::Grammar::action_of))]
pub fn action_of(table: Table, name: &[u8]) -> Option<(ActionName, Shape)>
    ensures { row_seen result ≡ action_of table name.now }
{
    match row_of_action(name) {
        Some(row) => {
            if is_of_table(table, row.0) {
                Some(row)
            } else {
                None
            }
        }
        None => None,
    }
}

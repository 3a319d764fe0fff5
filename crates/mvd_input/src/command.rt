//! The lines of a script, and those that are typed.
ghost use Rattle.std.specs.Prelude.{◌≡◌, ◌↔◌, IfNone, IfSome, IsTrue, None, Some, codes};
ghost use Rattle.mvd_input.specs.Lines.{IsAsked, IsSiteLine, IsCommand, IsLine, IsNoAsk, IsNoAt, IsNoCommand, IsNoLine};
ghost use Rattle.mvd_input.specs.Lines.{IsNoNumber, IsNoTypedAsk, IsNoView, IsNotTyped, IsNumber, IsPadded, IsTyped};
ghost use Rattle.mvd_input.specs.Lines.{IsTypedAsk, IsView, IsWord, spaced};

/// A line of a script, as it is written.
#[derive(Clone, Copy)]
pub enum Line<'a> {
    /// `sites N`
    Sites(u64),
    /// `max N`
    Max(u64),
    /// `index F`
    Index(&'a str),
    /// `view V G S`
    View(View<'a>),
    /// A command, on the site of this number.
    At(u64, Command<'a>),
}

/// A view, as it is written: its name, the field that groups, and the field that is summed.
#[derive(Clone, Copy)]
pub struct View<'a> {
    pub name: &'a str,
    pub group: &'a str,
    pub sum: &'a str,
}

/// What is to be done at a site. Texts are not read yet.
#[derive(Clone, Copy)]
pub enum Command<'a> {
    Ask(Ask<'a>),
    /// `send S K`
    Send { key: &'a str },
    /// `recv S M`
    Receive { message: u64 },
    /// `sync S T`
    Sync { peer: u64 },
}

/// What a site is asked, as it is written behind the site's number: a write, or a question.
#[derive(Clone, Copy)]
pub enum Ask<'a> {
    /// `put K CTX DOC`
    Put {
        key: &'a str,
        context: &'a str,
        document: &'a str,
    },
    /// `del K CTX`
    Delete {
        key: &'a str,
        context: &'a str,
    },
    /// `get K`
    Get {
        key: &'a str,
    },
    /// `row V TERM`
    Row {
        view: &'a str,
        term: &'a str,
    },
    /// `node PATH`, and `root`, whose path is `-`
    Node {
        path: &'a str,
    },
    /// `find F TERM`, page after page
    Find {
        field: &'a str,
        term: &'a str,
    },
    /// `range F PAIR`, page after page
    Range {
        field: &'a str,
        terms: &'a str,
    },
    /// `rows V`, page after page
    Rows {
        view: &'a str,
    },
    /// `keys`, or `keys PREFIX` of a prefix that is not empty, page after page
    Keys {
        prefix: Option<&'a str>,
    },
    /// `conflicts`, page after page
    Conflicts,
}

/// The line that a text is, if it is one.
#[tactic(auto, using(crate::proofs::Parting::one_parting))]
pub fn line_of(text: &str) -> Option<Line<'_>>
    ensures found { IfSome result (λ line. IsLine line text.now) }
    ensures none { IfNone result (IsNoLine text.now) }
{
    let (name, rest) = parted(text)?;
    match name {
        "sites" => Some(Line::Sites(number_of(rest)?)),
        "max" => Some(Line::Max(number_of(rest)?)),
        "index" => Some(Line::Index(rest)),
        "view" => Some(Line::View(view_of(rest)?)),
        "root" => Some(Line::At(number_of(rest)?, Command::Ask(ROOT))),
        _ => {
            let (site, command) = at_of(name, rest)?;
            Some(Line::At(site, command))
        }
    }
}

/// A line that is typed, as it is written: it names no site.
#[derive(Clone, Copy)]
pub enum Typed<'a> {
    /// `help`
    Help,
    /// A write, or a question.
    Ask(Ask<'a>),
}

/// The typed line that a text is, if it is one.
pub fn typed_of(text: &str) -> Option<Typed<'_>>
    ensures found { IfSome result (λ typed. IsTyped typed text.now) }
    ensures none { IfNone result (IsNotTyped text.now) }
{
    match text {
        "help" => Some(Typed::Help),
        "root" => Some(Typed::Ask(ROOT)),
        _ => Some(Typed::Ask(typed_ask(text)?)),
    }
}

/// What is asked by a typed line, which is a word, or a word with more behind it.
fn typed_ask(text: &str) -> Option<Ask<'_>>
    ensures found { IfSome result (λ ask. IsTypedAsk ask text.now) }
    ensures none { IfNone result (IsNoTypedAsk text.now) }
{
    match parted(text) {
        Some((name, rest)) => ask_of(name, rest),
        None => ask_alone(text),
    }
}

/// The digest of the whole hash tree.
const ROOT: Ask<'static> = Ask::Node { path: "-" };

/// The command of a name, and the number of its site, which stands first.
fn at_of<'a>(name: &str, rest: &'a str) -> Option<(u64, Command<'a>)>
    ensures found { IfSome result (λ at. IsSiteLine at.0 at.1 name.now rest.now) }
    ensures none { IfNone result (IsNoAt name.now rest.now) }
{
    match parted(rest) {
        Some((site, rest)) => Some((number_of(site)?, command_of(name, rest)?)),
        None => Some((number_of(rest)?, Command::Ask(ask_alone(name)?))),
    }
}

fn view_of(rest: &str) -> Option<View<'_>>
    ensures found { IfSome result (λ view. IsView view rest.now) }
    ensures none { IfNone result (IsNoView rest.now) }
{
    let (name, rest) = parted(rest)?;
    let (group, sum) = parted(rest)?;
    Some(View { name, group, sum })
}

/// The command of a name, with what stands behind the site.
fn command_of<'a>(name: &str, rest: &'a str) -> Option<Command<'a>>
    ensures found { IfSome result (λ command. IsCommand command name.now (Some rest.now)) }
    ensures none { IfNone result (IsNoCommand name.now (Some rest.now)) }
{
    match name {
        "send" => Some(Command::Send { key: last(rest)? }),
        "recv" => Some(Command::Receive {
            message: number_of(rest)?,
        }),
        "sync" => Some(Command::Sync {
            peer: number_of(rest)?,
        }),
        _ => Some(Command::Ask(ask_of(name, rest)?)),
    }
}

/// What is asked by a name alone.
fn ask_alone(name: &str) -> Option<Ask<'static>>
    ensures found { IfSome result (λ ask. IsAsked ask name.now None) }
    ensures none { IfNone result (IsNoAsk name.now None) }
{
    match name {
        "keys" => Some(Ask::Keys { prefix: None }),
        "conflicts" => Some(Ask::Conflicts),
        _ => None,
    }
}

/// What is asked by a name, with what stands behind it.
fn ask_of<'a>(name: &str, rest: &'a str) -> Option<Ask<'a>>
    ensures found { IfSome result (λ ask. IsAsked ask name.now (Some rest.now)) }
    ensures none { IfNone result (IsNoAsk name.now (Some rest.now)) }
{
    match parted(rest) {
        Some((first, behind)) => ask_of_parts(name, first, behind),
        None => ask_of_word(name, rest),
    }
}

/// What is asked by a name, with one word behind it.
fn ask_of_word<'a>(name: &str, word: &'a str) -> Option<Ask<'a>>
    ensures found { IsWord word.now → IfSome result (λ ask. IsAsked ask name.now (Some word.now)) }
    ensures none { IsWord word.now → IfNone result (IsNoAsk name.now (Some word.now)) }
{
    match name {
        "get" => Some(Ask::Get { key: word }),
        "node" => Some(Ask::Node { path: word }),
        "rows" => Some(Ask::Rows { view: word }),
        "keys" => keys_of(word),
        _ => None,
    }
}

/// The keys that begin with a prefix, which is not empty.
fn keys_of(prefix: &str) -> Option<Ask<'_>>
    ensures found { IsWord prefix.now → IfSome result (λ ask. IsAsked ask (codes "keys") (Some prefix.now)) }
    ensures none { IfNone result (IsNoAsk (codes "keys") (Some prefix.now)) }
{
    if prefix.is_empty() {
        return None;
    }
    Some(Ask::Keys {
        prefix: Some(prefix),
    })
}

/// What is asked by a name, with a word behind it and more behind that.
fn ask_of_parts<'a>(name: &str, first: &'a str, behind: &'a str) -> Option<Ask<'a>>
    ensures found { IsWord first.now → IfSome result (λ it. IsAsked it name.now (Some (spaced first.now behind.now))) }
    ensures none { IsWord first.now → IfNone result (IsNoAsk name.now (Some (spaced first.now behind.now))) }
{
    match name {
        "put" => put_of(first, behind),
        "del" => delete_of(first, behind),
        "row" => Some(Ask::Row {
            view: first,
            term: behind,
        }),
        "find" => Some(Ask::Find {
            field: first,
            term: behind,
        }),
        "range" => Some(Ask::Range {
            field: first,
            terms: behind,
        }),
        _ => None,
    }
}

/// A delete of a key, whose context ends the line.
fn delete_of<'a>(key: &'a str, rest: &'a str) -> Option<Ask<'a>>
    ensures found { IsWord key.now → IfSome result (λ ask. IsAsked ask (codes "del") (Some (spaced key.now rest.now))) }
    ensures none { IsWord key.now → IfNone result (IsNoAsk (codes "del") (Some (spaced key.now rest.now))) }
{
    Some(Ask::Delete {
        key,
        context: last(rest)?,
    })
}

/// A put at a key, whose document is the rest of the line.
fn put_of<'a>(key: &'a str, rest: &'a str) -> Option<Ask<'a>>
    ensures found { IsWord key.now → IfSome result (λ ask. IsAsked ask (codes "put") (Some (spaced key.now rest.now))) }
    ensures none { IsWord key.now → IfNone result (IsNoAsk (codes "put") (Some (spaced key.now rest.now))) }
{
    let (context, document) = parted(rest)?;
    Some(Ask::Put {
        key,
        context,
        document,
    })
}

/// What stands before the first space of a text, and behind it.
fn parted(text: &str) -> Option<(&str, &str)>
    ensures parts { IfSome result (λ parts. text.now ≡ spaced parts.0.now parts.1.now) }
    ensures word { IfSome result (λ parts. IsWord parts.0.now) }
    ensures none { IfNone result (IsWord text.now) }
{
    text.split_once(' ')
}

/// The last word of a line.
fn last(text: &str) -> Option<&str>
    ensures found { IfSome result (λ word. (word.now ≡ text.now) × IsWord word.now) }
    ensures none { IfNone result (IsWord text.now → ⊥) }
{
    if text.as_bytes().contains(&b' ') {
        return None;
    }
    Some(text)
}

/// Whether a plus stands first, or a zero that is not all.
fn is_padded(digits: &[u8]) -> bool
    ensures { IsTrue result ↔ IsPadded digits.now }
{
    match digits.first() {
        Some(b'+') => true,
        Some(b'0') => digits.len() > 1,
        _ => false,
    }
}

/// A decimal number without leading zeros.
pub fn number_of(text: &str) -> Option<u64>
    ensures found { IfSome result (λ number. IsNumber number text.now) }
    ensures none { IfNone result (IsNoNumber text.now) }
{
    if is_padded(text.as_bytes()) {
        return None;
    }
    text.parse::<u64>().ok()
}

// The command line: the arguments of the program, and the tokens as which they are read.
ghost use Rattle.std.specs.Prelude.{◌≡◌, ◌≢◌, ◌∷◌, [], map, string_bytes, IfSome, IfNone, IfOk};
ghost use Rattle.std.specs.Option.{option_map};
ghost use Rattle.std.specs.List.{list_all};
ghost use Rattle.rv_memory.specs.Limits.{IsWithinLimits};
ghost use Rattle.cli_args.specs.Args.{IsSampleNumber, inputs_read, lookup_given, names_read, repair_given};
ghost use Rattle.cli_args.specs.Args.{sample_given, verify_given};
ghost use Rattle.cli_args.specs.CommandLine.{lookup_of, sample_of, Positional, steps_name, symbols_name, is_option};
ghost use Rattle.cli_args.specs.CommandLine.{option_of, limit_of, symbols_of, values_of, is_run_token};
ghost use Rattle.cli_args.specs.CommandLine.{is_record_token, positionals, holds_zero, are_program_args};
ghost use Rattle.cli_args.specs.CommandLine.{rewrite_names_of, map_of, repair_of, run_of, record_of, command_of};
ghost use Rattle.cli_args.specs.CommandLine.{verify_of};
ghost use Rattle.cli_args.specs.CommandLineViews.{IsNoPositional, token_read, tokens_of, command_read, run_read};
ghost use Rattle.cli_args.specs.CommandLineViews.{record_read, NamesDiffer, ArgsFit};

use crate::args::{InputArgs, LookupArgs, RepairArgs, RewriteArgs, SampleArgs, VerifyArgs};
use crate::words::{address, sample_number};
use rb_bytes::fault::NoMemory;
use rb_bytes::number::decimal_number;
use rv_memory::stack::{MOST_ARG_BYTES, MOST_ARGS};
use std::alloc::Global;

// The option that limits a run's steps.
const STEPS: &str = "--steps";

// The option for a run on the symbol machine.
const SYMBOLS: &str = "--symbols";

// The limit on the steps of a run without `--steps`.
const DEFAULT_LIMIT: u64 = 100_000_000;

/// The file of `run`, and the limit on its steps. `tokens` are the tokens after the file's name, from which
/// [`program_args`] makes the program's arguments.
#[derive(Clone, Copy)]
pub struct RunTokens<'a> {
    pub file: &'a str,
    pub limit: u64,
    pub tokens: Tokens<'a>,
}

/// The run that `record` does, and the name of the file for its profile. The tokens of the run are those after both
/// names.
#[derive(Clone, Copy)]
pub struct RecordTokens<'a> {
    pub run: RunTokens<'a>,
    pub out: &'a str,
}

/// A command with its arguments.
#[derive(Clone, Copy)]
pub enum Command<'a> {
    Rewrite(RewriteArgs<'a>),
    Map(InputArgs<'a>),
    Run(RunTokens<'a>),
    RunSymbols(RunTokens<'a>),
    Record(RecordTokens<'a>),
    Repair(RepairArgs<'a>),
    Lookup(LookupArgs<'a>),
    Sample(SampleArgs<'a>),
    Verify(VerifyArgs<'a>),
    Frames(LookupArgs<'a>),
}

/// A token after the name of a command: an argument that isn't an option, or an option, with its value if it has one.
#[derive(Clone, Copy)]
pub enum Token<'a> {
    Positional(&'a str),
    Named {
        name: &'a str,
        value: Option<&'a str>,
    },
}

/// The tokens that weren't read yet. `args` are their arguments, and `options` says whether there may be options among
/// them: not after `--`.
#[derive(Clone, Copy)]
pub struct Tokens<'a> {
    pub args: &'a [String],
    pub options: bool,
}

// Whether an argument has the form of an option: a hyphen that is followed by something.
fn is_option(arg: &str) -> bool
    ensures { result ≡ is_option arg.now }
{
    arg.len() > 1 && arg.as_bytes().starts_with(b"-")
}

// The option in `arg`, without the next argument: `NAME=VALUE`, or only a name.
fn option(arg: &str) -> Token<'_>
    ensures { token_read result ≡ option_of arg.now }
{
    match arg.split_once('=') {
        Some((name, value)) => Token::Named {
            name,
            value: Some(value),
        },
        None => Token::Named {
            name: arg,
            value: None,
        },
    }
}

impl<'a> Tokens<'a> {
    // The next argument, of any kind.
    fn next_arg(&mut self) -> Option<&'a str>
        ensures options { self.new.options ≡ self.old.options }
        ensures some { IfSome result (λ arg.
            map string_bytes self.old.args.now ≡ arg.now ∷ map string_bytes self.new.args.now) }
        ensures none { IfNone result (self.old.args.now ≡ []) }
        ensures none_left { IfNone result (self.new.args.now ≡ []) }
    {
        let (arg, rest) = self.args.split_first()?;
        self.args = rest;
        Some(arg.as_str())
    }
}

impl<'a> Iterator for Tokens<'a> {
    ghost use Rattle.std.specs.Iterator.{YieldsFirstBy, item_count};

    type Item = Token<'a>;

    ghost next_gives = { YieldsFirstBy token_read tokens_of };

    ghost remaining = { item_count tokens_of };

    fn next(&mut self) -> Option<Token<'a>> {
        let arg = self.next_arg()?;
        if !self.options {
            return Some(Token::Positional(arg));
        }
        if arg == "--" {
            self.options = false;
            return Some(Token::Positional(self.next_arg()?));
        }
        if arg == STEPS {
            return Some(Token::Named {
                name: arg,
                value: self.next_arg(),
            });
        }
        if is_option(arg) {
            return Some(option(arg));
        }
        Some(Token::Positional(arg))
    }
}

// The next token, if it is positional. A token of any kind is removed from `tokens`.
fn next_positional<'a>(tokens: &mut Tokens<'a>) -> Option<&'a str>
    ensures found { IfSome result (λ arg. tokens_of tokens.old ≡ Positional arg.now ∷ tokens_of tokens.new) }
    ensures none { IfNone result (IsNoPositional (tokens_of tokens.old)) }
{
    match tokens.next()? {
        Token::Positional(arg) => Some(arg),
        Token::Named { .. } => None,
    }
}

// The arguments of `rewrite`. The output and the map must differ, since one would overwrite the other.
fn rewrite_args(mut tokens: Tokens<'_>) -> Option<RewriteArgs<'_>>
    ensures command { option_map names_read result ≡ rewrite_names_of (tokens_of tokens.entry) }
    ensures apart { IfSome result (λ a. a.out.now ≢ a.map.now) }
{
    let file = next_positional(&mut tokens)?;
    let profile = next_positional(&mut tokens)?;
    let out = next_positional(&mut tokens)?;
    let map = next_positional(&mut tokens)?;
    if tokens.next().is_some() || out == map {
        return None;
    }
    Some(RewriteArgs {
        inputs: InputArgs { file, profile },
        out,
        map,
    })
}

// The arguments of `map`.
fn map_args(mut tokens: Tokens<'_>) -> Option<InputArgs<'_>>
    ensures { option_map inputs_read result ≡ map_of (tokens_of tokens.entry) }
{
    let file = next_positional(&mut tokens)?;
    let profile = next_positional(&mut tokens)?;
    if tokens.next().is_some() {
        return None;
    }
    Some(InputArgs { file, profile })
}

// The arguments of `repair`. All three names must differ.
fn repair_args(mut tokens: Tokens<'_>) -> Option<RepairArgs<'_>>
    ensures { option_map repair_given result ≡ repair_of (tokens_of tokens.entry) }
{
    let file = next_positional(&mut tokens)?;
    let profile = next_positional(&mut tokens)?;
    let out = next_positional(&mut tokens)?;
    if tokens.next().is_some() || file == profile || file == out || profile == out {
        return None;
    }
    Some(RepairArgs {
        inputs: InputArgs { file, profile },
        out,
    })
}

// The arguments of `lookup`, and of `frames`.
fn lookup_args(mut tokens: Tokens<'_>) -> Option<LookupArgs<'_>>
    ensures { option_map lookup_given result ≡ lookup_of (tokens_of tokens.entry) }
{
    let file = next_positional(&mut tokens)?;
    let word = next_positional(&mut tokens)?;
    if tokens.next().is_some() {
        return None;
    }
    let address = address(word.as_bytes())?;
    Some(LookupArgs { file, address })
}

// The arguments of `sample`. The names of both files must differ.
fn sample_args(mut tokens: Tokens<'_>) -> Option<SampleArgs<'_>>
    ensures command { option_map sample_given result ≡ sample_of (tokens_of tokens.entry) }
    ensures number { IfSome result (λ a. IsSampleNumber a.number) }
    ensures apart { IfSome result (λ a. a.file.now ≢ a.profile.now) }
{
    let digits = next_positional(&mut tokens)?;
    let file = next_positional(&mut tokens)?;
    let profile = next_positional(&mut tokens)?;
    if tokens.next().is_some() || file == profile {
        return None;
    }
    let number = sample_number(digits.as_bytes())?;
    Some(SampleArgs {
        number,
        file,
        profile,
    })
}

// The arguments of `verify`.
fn verify_args(mut tokens: Tokens<'_>) -> Option<VerifyArgs<'_>>
    ensures { option_map verify_given result ≡ verify_of (tokens_of tokens.entry) }
{
    let input = next_positional(&mut tokens)?;
    let output = next_positional(&mut tokens)?;
    let map = next_positional(&mut tokens)?;
    if tokens.next().is_some() {
        return None;
    }
    Some(VerifyArgs { input, output, map })
}

// Whether the tokens have no options other than those of `run`: `--steps`, and `--symbols` without a value.
fn has_only_run_options(tokens: Tokens<'_>) -> bool
    ensures { result ≡ list_all is_run_token (tokens_of tokens.entry) }
{
    for token in tokens {
        let known = match token {
            Token::Positional(_) => true,
            Token::Named {
                name,
                value: Some(_),
            } => name == STEPS,
            Token::Named { name, value: None } => name == STEPS || name == SYMBOLS,
        };
        if !known {
            return false;
        }
    }
    true
}

// The limit on the steps of a run: the value of `--steps`, or the default without it. `None` if `--steps` occurs twice,
// or if its value isn't a number.
#[tactic(auto, using(crate::proofs::StepLimit::of_none, crate::proofs::StepLimit::of_bad, crate::proofs::StepLimit::of_number))]
fn limit(tokens: Tokens<'_>) -> Option<u64>
    ensures { result ≡ limit_of (values_of steps_name (tokens_of tokens.entry)) }
{
    let mut limit = None;
    for token in tokens {
        let Token::Named { name, value } = token else {
            continue;
        };
        if name != STEPS {
            continue;
        }
        if limit.is_some() {
            return None;
        }
        limit = Some(decimal_number(value?.as_bytes())?);
    }
    Some(limit.unwrap_or(DEFAULT_LIMIT))
}

// Whether a file is run on the symbol machine. `None` if `--symbols` occurs twice.
#[tactic(auto, using(crate::proofs::RunArguments::symbols_of_more))]
fn symbols(tokens: Tokens<'_>) -> Option<bool>
    ensures { result ≡ symbols_of (values_of symbols_name (tokens_of tokens.entry)) }
{
    let mut symbols = false;
    for token in tokens {
        let Token::Named { name, .. } = token else {
            continue;
        };
        if name != SYMBOLS {
            continue;
        }
        if symbols {
            return None;
        }
        symbols = true;
    }
    Some(symbols)
}

// The first positional token. It is removed from `tokens` together with the options before it, which `limit` and
// `symbols` read from a copy.
fn first_positional<'a>(tokens: &mut Tokens<'a>) -> Option<&'a str>
    ensures some { IfSome result (λ arg.
        positionals (tokens_of tokens.old) ≡ arg.now ∷ positionals (tokens_of tokens.new)) }
    ensures none { IfNone result (positionals (tokens_of tokens.old) ≡ []) }
{
    while let Some(token) = tokens.next() {
        if let Token::Positional(arg) = token {
            return Some(arg);
        }
    }
    None
}

fn holds_zero(arg: &str) -> bool
    ensures { result ≡ holds_zero arg.now }
{
    arg.as_bytes().contains(&0)
}

// Whether the positional tokens may be given to a program as its arguments: there are at most `MOST_ARGS`, they have at
// most `MOST_ARG_BYTES` bytes in all, and none contains a zero byte, which ends an argument in memory.
fn are_program_args(tokens: Tokens<'_>) -> bool
    ensures { result ≡ are_program_args (positionals (tokens_of tokens.entry)) }
{
    let mut args_left = MOST_ARGS;
    let mut bytes_left = MOST_ARG_BYTES;
    for token in tokens {
        if let Token::Positional(arg) = token {
            if args_left == 0 || arg.len() > bytes_left || holds_zero(arg) {
                return false;
            }
            args_left -= 1;
            bytes_left -= arg.len();
        }
    }
    true
}

// The arguments of `run`.
#[tactic(auto, using(crate::proofs::RunArguments::within_limits))]
fn run_args(mut tokens: Tokens<'_>) -> Option<Command<'_>>
    ensures command { option_map command_read result ≡ run_of (tokens_of tokens.entry) }
    ensures apart { IfSome result NamesDiffer }
    ensures limits { IfSome result ArgsFit }
{
    if !has_only_run_options(tokens) {
        return None;
    }
    let limit = limit(tokens)?;
    let symbols = symbols(tokens)?;
    let file = first_positional(&mut tokens)?;
    if !are_program_args(tokens) {
        return None;
    }
    let run = RunTokens {
        file,
        limit,
        tokens,
    };
    if symbols {
        Some(Command::RunSymbols(run))
    } else {
        Some(Command::Run(run))
    }
}

// Whether the tokens have no options other than `--steps`.
fn has_only_record_options(tokens: Tokens<'_>) -> bool
    ensures { result ≡ list_all is_record_token (tokens_of tokens.entry) }
{
    for token in tokens {
        let known = match token {
            Token::Positional(_) => true,
            Token::Named { name, .. } => name == STEPS,
        };
        if !known {
            return false;
        }
    }
    true
}

// The arguments of `record`. The file and its profile must have different names.
#[tactic(auto, using(crate::proofs::RunArguments::within_limits))]
fn record_args(mut tokens: Tokens<'_>) -> Option<RecordTokens<'_>>
    ensures command { option_map record_read result ≡ record_of (tokens_of tokens.entry) }
    ensures limits { IfSome result (λ a. IsWithinLimits (run_read a.run).args) }
{
    if !has_only_record_options(tokens) {
        return None;
    }
    let limit = limit(tokens)?;
    let file = first_positional(&mut tokens)?;
    let out = first_positional(&mut tokens)?;
    if file == out || !are_program_args(tokens) {
        return None;
    }
    let run = RunTokens {
        file,
        limit,
        tokens,
    };
    Some(RecordTokens { run, out })
}

/// The command that `args` are, without the program's own name; `None` if they are no command. Uses no memory.
pub fn parse(args: &[String]) -> Option<Command<'_>>
    ensures command { option_map command_read result ≡ command_of (map string_bytes args.now) }
    ensures apart { IfSome result NamesDiffer }
    ensures limits { IfSome result ArgsFit }
{
    let [name, rest @ ..] = args else {
        return None;
    };
    let tokens = Tokens {
        args: rest,
        options: true,
    };
    match name.as_str() {
        "rewrite" => rewrite_args(tokens).map(Command::Rewrite),
        "map" => map_args(tokens).map(Command::Map),
        "run" => run_args(tokens),
        "record" => record_args(tokens).map(Command::Record),
        "repair" => repair_args(tokens).map(Command::Repair),
        "lookup" => lookup_args(tokens).map(Command::Lookup),
        "sample" => sample_args(tokens).map(Command::Sample),
        "verify" => verify_args(tokens).map(Command::Verify),
        "frames" => lookup_args(tokens).map(Command::Frames),
        _ => None,
    }
}

/// The arguments that the program of a run gets: the positional tokens after the names of files.
pub fn program_args(alloc: Global, args: &RunTokens<'_>) -> Result<Vec<String>, NoMemory>
    ensures { IfOk result (λ list. map string_bytes list.items ≡ (run_read args.now).args) }
{
    let mut list = Vec::new(alloc);
    for token in args.tokens {
        if let Token::Positional(arg) = token {
            list.push(String::from_str(alloc, arg)?)?;
        }
    }
    Ok(list)
}

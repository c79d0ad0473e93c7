//! The words of the command line.

ghost use Rattle.std.specs.Prelude.{◌≡◌, ◌≢◌, ◌≤◌, ◌<◌, ℕ, true, false, is_some, IfSome, IsSomeAnd, None, Some, List, [], ◌++◌, length, MatchOption, unwrap_or};
ghost use Rattle.std.specs.Option.{ForSome};
ghost use Rattle.osgi_ops.specs.Settings.{Bounds, bounds_of, standard_bounds};
ghost use Rattle.osgi_ops.specs.declared.limits.TheConstants.{MAX_BUDGET, MAX_HANDINGS};
ghost use Rattle.osgi_program.specs.Words.{replies, run_options, Asks, GivenOption, GivesNumber, IsNumberUpTo, IsOneOf, IsOption, Request};
ghost use Rattle.osgi_program.specs.computed.Options.{budget_with, given_as, greatest_of, handings_with, so_far, AsksMore};

use osgi_base::{ServiceId, Text};
use osgi_ops::{Limits, MAX_BUDGET, MAX_HANDINGS};
use osgi_syntax::id;

const BUDGET: &[u8] = b"--budget";

const HANDINGS: &[u8] = b"--handings";

/// A word as a number from 1 to this one: one to ten digits. None where it is none.
fn number(word: &[u8], most: u64) -> Option<u64>
    ensures reads { IfSome result (IsNumberUpTo most word.now) }
    ensures only { (number : ℕ) → IsNumberUpTo most word.now number → result ≡ Some number }
{
    // Ids and numbers are written alike.
    let ServiceId(number) = id(word)?;
    if number < 1 || number > most {
        return None;
    }
    Some(number)
}

/// What stands behind these bytes in a word that begins with them.
fn behind<'a>(word: &'a [u8], first: &[u8]) -> Option<&'a [u8]>
    ensures behind { MatchOption result ((rest : List ℕ) → word.now ≢ first.now ++ rest) (λ rest.
        word.now ≡ first.now ++ rest.now) }
{
    word.strip_prefix(first)
}

/// The word of the number of an option of this name that the words begin with, and the words after it.
fn option<'a>(words: &'a [Text], name: &[u8]) -> Option<(&'a [u8], &'a [Text])>
    ensures reads { IfSome result (λ r. IsOption name.now words.now r.0.now r.1.now) }
    ensures only { (word : List ℕ) (rest : List (List ℕ)) → IsOption name.now words.now word rest →
        IsSomeAnd result (λ r. (r.0.now ≡ word) × (r.1.now ≡ rest)) }
{
    let (first, more) = words.split_first()?;
    let after = behind(first.bytes(), name)?;
    if after.is_empty() {
        let (word, rest) = more.split_first()?;
        return Some((word.bytes(), rest));
    }
    Some((behind(after, b"=".as_slice())?, more))
}

/// The number, from 1 to this one, of an option of this name that the words begin with, and the words after it.
fn numbered<'a>(words: &'a [Text], name: &[u8], most: u64) -> Option<(u64, &'a [Text])>
    ensures reads { IfSome result (λ r. GivesNumber name.now most words.now r.0 r.1.now) }
    ensures only { (number : ℕ) (rest : List (List ℕ))
        → GivesNumber name.now most words.now number rest
        → IsSomeAnd result (λ r. (r.0 ≡ number) × (r.1.now ≡ rest)) }
{
    let (word, rest) = option(words, name)?;
    Some((number(word, most)?, rest))
}

/// An option of a run.
#[derive(Clone, Copy)]
enum RunOption {
    /// `--budget`
    Budget,
    /// `--handings`
    Handings,
}

/// The option that the words begin with, its number, and the words after it.
fn option_at(words: &[Text]) -> Option<(RunOption, u64, &[Text])>
    ensures fits { IfSome result (λ r. r.1 ≤ greatest_of r.0) }
    ensures reads { IfSome result (λ r. IsOneOf run_options words.now (given_as r.0 r.1) r.2.now) }
    ensures only { (given : GivenOption) (rest : List (List ℕ)) → IsOneOf run_options words.now given rest
        → IsSomeAnd result (λ r. (given_as r.0 r.1 ≡ given) × (r.2.now ≡ rest)) }
    ensures fewer { IfSome result (λ r. length r.2.now < length words.now) }
{
    match numbered(words, BUDGET, MAX_BUDGET) {
        Some((number, rest)) => Some((RunOption::Budget, number, rest)),
        None => {
            let (number, rest) = numbered(words, HANDINGS, MAX_HANDINGS)?;
            Some((RunOption::Handings, number, rest))
        }
    }
}

/// The options of a run that were given.
#[derive(Clone, Copy)]
struct Chosen {
    budget: Option<u64>,
    handings: Option<u64>,
    ghost budget_fits: { ForSome budget (λ number. number ≤ MAX_BUDGET) },
    ghost handings_fit: { ForSome handings (λ number. number ≤ MAX_HANDINGS) },
}

impl Chosen {
    /// No option.
    fn none() -> Chosen
        ensures budget { result.budget ≡ None }
        ensures handings { result.handings ≡ None }
    {
        Chosen {
            budget: None,
            handings: None,
        }
    }

    /// With the number of one more option. None where the option was given before.
    fn with(self, choice: RunOption, number: u64) -> Option<Chosen>
        requires fits { number ≤ greatest_of choice }
        ensures once { MatchOption result
            (is_some (so_far choice self.budget self.handings) ≡ true)
            (λ more. is_some (so_far choice self.budget self.handings) ≡ false) }
        ensures budget { IfSome result (λ more.
            more.budget ≡ budget_with choice number self.budget) }
        ensures handings { IfSome result (λ more.
            more.handings ≡ handings_with choice number self.handings) }
    {
        match choice {
            RunOption::Budget => {
                if self.budget.is_some() {
                    return None;
                }
                Some(Chosen {
                    budget: Some(number),
                    handings: self.handings,
                })
            }
            RunOption::Handings => {
                if self.handings.is_some() {
                    return None;
                }
                Some(Chosen {
                    budget: self.budget,
                    handings: Some(number),
                })
            }
        }
    }

    /// With the option that the words begin with, and the words after it. None where they begin with none, or it was given before.
    fn more(self, words: &[Text]) -> Option<(Chosen, &[Text])>
        ensures reads { IfSome result (λ r.
            (bounds : Bounds)
            → AsksMore r.0.budget r.0.handings r.1.now bounds
            → AsksMore self.budget self.handings words.now bounds) }
        ensures only { words.now ≢ [] → (bounds : Bounds)
            → AsksMore self.budget self.handings words.now bounds
            → IsSomeAnd result (λ r. AsksMore r.0.budget r.0.handings r.1.now bounds) }
        ensures fewer { IfSome result (λ r. length r.1.now < length words.now) }
    {
        let (choice, number, rest) = option_at(words)?;
        let more = self.with(choice, number)?;
        Some((more, rest))
    }

    /// The limits of a run with these options.
    fn limits(self) -> Limits
        ensures bounds { bounds_of result ≡ record {
          budget = unwrap_or self.budget standard_bounds.budget;
          handings = unwrap_or self.handings standard_bounds.handings;
          entries = standard_bounds.entries;
        } }
    {
        let standard = Limits::standard();
        Limits {
            budget: self.budget.unwrap_or(standard.budget),
            handings: self.handings.unwrap_or(standard.handings),
            entries: standard.entries,
        }
    }
}

/// The limits that the words after `run` give. None where they are no options, or one is given twice.
fn options(words: &[Text]) -> Option<Limits>
    ensures reads { IfSome result (λ limits. AsksMore None None words.now (bounds_of limits)) }
    ensures only { (bounds : Bounds) → AsksMore None None words.now bounds →
        IsSomeAnd result (λ limits. bounds_of limits ≡ bounds) }
{
    let mut chosen = Chosen::none();
    let mut rest = words;
    while !rest.is_empty() {
        let (next, more) = chosen.more(rest)?;
        chosen = next;
        rest = more;
    }
    Some(chosen.limits())
}

/// The limits of a run, if the words ask for one.
pub fn run_limits(words: &[Text]) -> Option<Limits>
    ensures reads { IfSome result (λ limits. Asks words.now (replies (bounds_of limits))) }
    ensures only { (asked : Request)
        → Asks words.now asked
        → IsSomeAnd result (λ limits. replies (bounds_of limits) ≡ asked) }
{
    let (first, rest) = words.split_first()?;
    if first.bytes() == b"run".as_slice() {
        options(rest)
    } else {
        None
    }
}

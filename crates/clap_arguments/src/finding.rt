// What was found of arguments in words.

ghost use Rattle.std.specs.Prelude.{◌≡◌, IfOk, map, option_map, string_bytes};
ghost use Rattle.clap.specs.Words.{rows_of, first_of, one_of, found_of, all_of};
ghost use Rattle.clap_arguments.specs.Arguments.{IsFlag, IsWord, AreWords};

use clap::ArgMatches;
use std::alloc::{AllocError, Global};

/// Whether the flag of this name was found.
#[tactic(auto, using(crate::proofs::FoundFacts::is_flag))]
pub fn has_flag(found: &ArgMatches, name: &str) -> bool
    ensures { IsFlag (one_of name.now (rows_of (found_of found.now))) result }
{
    found.get_flag(name)
}

/// The value of the option of this name, if it was found.
pub fn option_at<'a>(found: &ArgMatches<'a>, name: &str) -> Option<&'a str>
    ensures { option_map (λ t. t.now) result ≡ first_of name.now (rows_of (found_of found.now)) }
{
    found.get_str(name)
}

/// The word of this name; an empty text if none was found.
pub fn word_at<'a>(found: &ArgMatches<'a>, name: &str) -> &'a str
    ensures { IsWord (first_of name.now (rows_of (found_of found.now))) result.now }
{
    match found.get_str(name) {
        Some(text) => text,
        None => "",
    }
}

/// Copies texts.
fn copied(alloc: Global, texts: &[&str]) -> Result<Vec<String>, AllocError>
    ensures { IfOk result (λ names. map string_bytes names.items ≡ map (λ t. t.now) texts.now) }
{
    let mut names = Vec::new(alloc);
    for text in texts {
        let name = String::from_str(alloc, *text)?;
        names.push(name)?;
    }
    Ok(names)
}

/// The words of this name. The only error is that memory ran out.
pub fn words_at(alloc: Global, found: &ArgMatches, name: &str) -> Result<Vec<String>, AllocError>
    ensures { IfOk result (λ words. AreWords (all_of name.now (rows_of (found_of found.now))) (map string_bytes words.items)) }
{
    match found.get_strs(name) {
        Some(texts) => copied(alloc, texts),
        None => Ok(Vec::new(alloc)),
    }
}

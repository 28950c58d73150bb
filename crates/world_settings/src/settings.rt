// Settings: the TOML document that an input begins with.

ghost use Rattle.std.specs.Prelude.{◌≡◌, ◌≤◌, ◌&&◌, ◌∷◌, [], map, option_map, option_and_then, is_some, string_bytes, nat_le, IfOk, IfSome};
ghost use Rattle.std.specs.List.{list_all, list_any};
ghost use Rattle.std.specs.Map.{keys_of};
ghost use Rattle.std.specs.Option.{ok_or};
ghost use Rattle.lock_messages.specs.declared.ids.TheConstants.{MAX_CLIENTS};
ghost use Rattle.std.specs.Str.{bytes_eq};
ghost use Rattle.toml.specs.Data.{as_integer, as_str, get_member};
ghost use Rattle.toml.specs.View.{view, items_view, table_view};
ghost use Rattle.world_settings.specs.Settings.{Judges, tells_ballot, world_keys, run_keys, is_known, all_known, all_keys, numbers_of, numbers_at, numbers_in, all_numbers, more_at, judged, all_judged, onto, listed, if_placed, within, number_at, number_or, number_for, seed_at, vote_list, votes_at, problem_numbered, problem_at, clients_at, count, are_texts, are_few_texts, has_wish_texts, run_values, weather_of, wish_from, wishes_in, wishes_at, world_of, given, values_of, settings_of, AreAmong};

use crate::{Command, SettingsFault};
use event_lines::{LineFault, MAX_WISHES, Wish, read_wish_among};
use lock_messages::MAX_CLIENTS;
use lock_model::Problem;
use lossy_link::Weather;
use std::alloc::Global;
use std::str;
use toml::{Table, Value};
use vote_weights::{Ballot, BallotList};

/// What settings say of the world: the ballots, the first problem of every node, and how many clients
/// there are, 1 to 1,024.
#[derive(Clone, Copy, Debug, PartialEq, Eq)]
pub struct Settings {
    pub ballots: BallotList,
    pub problem: Problem,
    pub clients: u16,
}

/// What an input begins with: what its settings say of the world, the weather of each link of a run,
/// and what clients are to do in it, in this order.
#[derive(Drop)]
pub struct Start {
    pub settings: Settings,
    pub weather: Weather,
    pub wishes: Vec<Wish>,
}

/// The numbers of a ballot, before they are judged.
#[derive(Drop)]
pub(crate) struct Numbers {
    votes: Vec<u8>,
    read: u16,
    write: u16,
}

/// The numbers that a weather is made of.
#[derive(Clone, Copy)]
pub struct RunValues {
    pub seed: u64,
    pub lose: u16,
    pub twice: u16,
    pub late: u16,
}

/// Whether the key tells of a ballot.
fn tells_ballot(key: &str) -> bool
    ensures { result ≡ tells_ballot key.now }
{
    key == "votes" || key == "read" || key == "write"
}

/// Whether the key tells of the rest of the world.
fn tells_world(key: &str) -> bool
    ensures { result ≡ list_any (bytes_eq key.now) world_keys }
{
    key == "problem" || key == "clients" || key == "more"
}

/// Whether the key tells of a run.
fn tells_run(key: &str) -> bool
    ensures { result ≡ list_any (bytes_eq key.now) run_keys }
{
    key == "seed" || key == "lose" || key == "twice" || key == "late" || key == "wishes"
}

/// Whether settings have this key.
fn is_known(key: &str) -> bool
    ensures { result ≡ is_known key.now }
{
    tells_ballot(key) || tells_world(key) || tells_run(key)
}

/// Whether settings have each of the table's keys.
fn each_key_is_known(table: &Table) -> bool
    ensures { result ≡ list_all (λ k. is_known (string_bytes k)) (keys_of table.now.entries) }
{
    table.keys().all(|key| is_known(key.as_str()))
}

/// Whether settings have all keys of the table.
fn has_known_keys(table: &Table) -> bool
    ensures { result ≡ all_known (table_view table.now) }
{
    each_key_is_known(table)
}

/// Whether each of the table's keys tells of a ballot.
fn each_key_tells_ballot(table: &Table) -> bool
    ensures { result ≡ list_all (λ k. tells_ballot (string_bytes k)) (keys_of table.now.entries) }
{
    table.keys().all(|key| tells_ballot(key.as_str()))
}

/// Whether the table has keys of a ballot alone.
fn has_ballot_keys(table: &Table) -> bool
    ensures { result ≡ all_keys tells_ballot (table_view table.now) }
{
    each_key_tells_ballot(table)
}

/// The integer, where it is from `least` to `most`.
fn within(value: i64, least: u16, most: u16) -> Option<u16>
    ensures number { result ≡ within least most value }
    ensures in_range { IfSome result (λ n. (least ≤ n) × (n ≤ most)) }
{
    if value < least as i64 || value > most as i64 {
        return None;
    }
    Some(value as u16)
}

/// The value at the key.
fn value_at<'a>(table: &'a Table, key: &str) -> Option<&'a Value>
    ensures { option_map (λ v. view v.now) result ≡ get_member key.now (table_view table.now) }
{
    table.get(key)
}

/// The integer at the key, from `least` to `most`.
fn number_at(table: &Table, key: &str, least: u16, most: u16) -> Result<u16, SettingsFault>
    ensures number { result ≡ number_at least most key.now (table_view table.now) }
    ensures in_range { IfOk result (λ n. (least ≤ n) × (n ≤ most)) }
{
    let Some(value) = value_at(table, key) else {
        return Err(SettingsFault::Value);
    };
    let Some(number) = value.as_integer() else {
        return Err(SettingsFault::Value);
    };
    within(number, least, most).ok_or(SettingsFault::Value)
}

/// The integer at the key, from `least` to `most`; where there is no such key, another one.
fn number_or(
    table: &Table,
    key: &str,
    least: u16,
    most: u16,
    absent: u16,
) -> Result<u16, SettingsFault>
    requires least { least ≤ absent }
    requires most { absent ≤ most }
    ensures number { result ≡ number_or absent least most key.now (table_view table.now) }
    ensures in_range { IfOk result (λ n. (least ≤ n) × (n ≤ most)) }
{
    match value_at(table, key) {
        None => Ok(absent),
        Some(_) => number_at(table, key, least, most),
    }
}

/// The integer at a key that only the question for the ballot can do without.
fn number_for(
    command: Command,
    table: &Table,
    key: &str,
    least: u16,
    most: u16,
    absent: u16,
) -> Result<u16, SettingsFault>
    requires least { least ≤ absent }
    requires most { absent ≤ most }
    ensures number { result ≡ number_for command absent least most key.now (table_view table.now) }
    ensures in_range { IfOk result (λ n. (least ≤ n) × (n ≤ most)) }
{
    match command {
        Command::Script => number_at(table, key, least, most),
        Command::Audit => number_at(table, key, least, most),
        Command::Ballot => number_or(table, key, least, most, absent),
        Command::Run { .. } => number_at(table, key, least, most),
    }
}

/// The number of the weather.
fn seed_at(table: &Table) -> Result<u64, SettingsFault>
    ensures { result ≡ seed_at (table_view table.now) }
{
    let Some(value) = value_at(table, "seed") else {
        return Ok(0);
    };
    let Some(number) = value.as_integer() else {
        return Err(SettingsFault::Value);
    };
    if number < 0 {
        return Err(SettingsFault::Value);
    }
    Ok(number as u64)
}

/// A number of votes.
fn vote(value: &Value) -> Option<u8>
    ensures { result ≡ option_and_then (within 0 255) (as_integer (view value.now)) }
{
    let number = within(value.as_integer()?, 0, 255)?;
    Some(number as u8)
}

/// The numbers of votes.
fn vote_list(alloc: Global, values: &[Value]) -> Result<Vec<u8>, SettingsFault>
    ensures { Judges (λ v. v.items) result (ok_or (vote_list (items_view values.now)) SettingsFault.Value) }
{
    let mut votes = Vec::new(alloc);
    for value in values {
        let Some(number) = vote(value) else {
            return Err(SettingsFault::Value);
        };
        if votes.push(number).is_err() {
            return Err(SettingsFault::Memory);
        }
    }
    Ok(votes)
}

/// The votes of each node.
fn votes_at(alloc: Global, table: &Table) -> Result<Vec<u8>, SettingsFault>
    ensures { Judges (λ v. v.items) result (votes_at (table_view table.now)) }
{
    match value_at(table, "votes") {
        Some(Value::Array(values)) => vote_list(alloc, values.as_slice()),
        _ => Err(SettingsFault::Value),
    }
}

/// The problem of this number.
fn problem_numbered(number: u16) -> Problem
    ensures { result ≡ problem_numbered number }
{
    if number == 1 {
        Problem::First
    } else {
        Problem::Second
    }
}

/// The first problem of every node.
fn problem_at(command: Command, table: &Table) -> Result<Problem, SettingsFault>
    ensures { Judges (λ p. p) result (problem_at command (table_view table.now)) }
{
    let number = number_for(command, table, "problem", 1, 2, 1)?;
    Ok(problem_numbered(number))
}

/// How many clients there are.
fn clients_at(command: Command, table: &Table) -> Result<u16, SettingsFault>
    ensures number { result ≡ clients_at command (table_view table.now) }
    ensures in_range { IfOk result (λ n. (1 ≤ n) × (n ≤ MAX_CLIENTS)) }
{
    number_for(
        command,
        table,
        "clients",
        1,
        MAX_CLIENTS as u16,
        MAX_CLIENTS as u16,
    )
}

/// The numbers of the ballot that a table has.
fn numbers_at(alloc: Global, table: &Table) -> Result<Numbers, SettingsFault>
    ensures { Judges numbers_of result (numbers_at (table_view table.now)) }
{
    let votes = votes_at(alloc, table)?;
    let read = number_at(table, "read", 0, u16::MAX)?;
    let write = number_at(table, "write", 0, u16::MAX)?;
    Ok(Numbers { votes, read, write })
}

/// The numbers of the ballot that a value is.
fn numbers_in(alloc: Global, value: &Value) -> Result<Numbers, SettingsFault>
    ensures { Judges numbers_of result (numbers_in (view value.now)) }
{
    let Value::Table(table) = value else {
        return Err(SettingsFault::Value);
    };
    if !has_ballot_keys(table) {
        return Err(SettingsFault::Value);
    }
    numbers_at(alloc, table)
}

/// The numbers of the ballots that the values are.
fn all_numbers(alloc: Global, values: &[Value]) -> Result<Vec<Numbers>, SettingsFault>
    ensures { Judges (λ v. map numbers_of v.items) result (all_numbers (items_view values.now)) }
{
    let mut all = Vec::new(alloc);
    for value in values {
        let numbers = match numbers_in(alloc, value) {
            Ok(numbers) => numbers,
            Err(fault) => return Err(fault),
        };
        if all.push(numbers).is_err() {
            return Err(SettingsFault::Memory);
        }
    }
    Ok(all)
}

/// The numbers of the ballots behind the first one.
fn more_at(alloc: Global, table: &Table) -> Result<Vec<Numbers>, SettingsFault>
    ensures { Judges (λ v. map numbers_of v.items) result (more_at (table_view table.now)) }
{
    match value_at(table, "more") {
        None => Ok(Vec::new(alloc)),
        Some(Value::Array(values)) => all_numbers(alloc, values.as_slice()),
        Some(_) => Err(SettingsFault::Value),
    }
}

/// The ballot of these numbers.
fn judged(numbers: &Numbers) -> Result<Ballot, SettingsFault>
    ensures { result ≡ judged (numbers_of numbers.now) }
{
    match Ballot::of(numbers.votes.as_slice(), numbers.read, numbers.write) {
        Ok(ballot) => Ok(ballot),
        Err(fault) => Err(SettingsFault::Ballot(fault)),
    }
}

/// The first ballot, and those of these numbers behind it.
fn all_judged(alloc: Global, first: Ballot, more: &[Numbers]) -> Result<Vec<Ballot>, SettingsFault>
    ensures { Judges (λ v. v.items) result (onto (first ∷ []) (all_judged (map numbers_of more.now))) }
{
    let mut ballots = Vec::new(alloc);
    if ballots.push(first).is_err() {
        return Err(SettingsFault::Memory);
    }
    for numbers in more {
        let ballot = match judged(numbers) {
            Ok(ballot) => ballot,
            Err(fault) => return Err(fault),
        };
        if ballots.push(ballot).is_err() {
            return Err(SettingsFault::Memory);
        }
    }
    Ok(ballots)
}

/// The list of these ballots.
fn listed(ballots: &[Ballot]) -> Result<BallotList, SettingsFault>
    ensures { result ≡ listed ballots.now }
{
    match BallotList::of(ballots) {
        Ok(ballots) => Ok(ballots),
        Err(fault) => Err(SettingsFault::Ballot(fault)),
    }
}

/// What the values say of the world.
#[tactic(auto, unfolding(crate::specs::Settings::world_of))]
fn world_of(alloc: Global, command: Command, table: &Table) -> Result<Settings, SettingsFault>
    ensures settings { Judges (λ s. s) result (world_of command (table_view table.now)) }
    ensures in_range { IfOk result (λ s. (1 ≤ s.clients) × (s.clients ≤ MAX_CLIENTS)) }
{
    let first = numbers_at(alloc, table)?;
    let problem = problem_at(command, table)?;
    let clients = clients_at(command, table)?;
    let more = more_at(alloc, table)?;
    let one = judged(&first)?;
    let all = all_judged(alloc, one, more.as_slice())?;
    let ballots = listed(all.as_slice())?;
    Ok(Settings {
        ballots,
        problem,
        clients,
    })
}

/// Whether each value is a text.
fn each_is_text(values: &[Value]) -> bool
    ensures { result ≡ list_all (λ v. is_some (as_str (view v))) values.now }
{
    values.iter().all(|value| value.is_str())
}

/// Whether the values are texts.
fn are_texts(values: &[Value]) -> bool
    ensures { result ≡ are_texts (items_view values.now) }
{
    each_is_text(values)
}

/// Whether the values are texts, and no more than there may be wishes.
#[tactic(auto, using(crate::proofs::SettingsFacts::count_view))]
fn are_few_texts(values: &[Value]) -> bool
    ensures { result ≡ are_few_texts (items_view values.now) }
{
    values.len() <= MAX_WISHES && are_texts(values)
}

/// Whether the wishes, if there are any, are texts.
fn has_wish_texts(table: &Table) -> bool
    ensures { result ≡ has_wish_texts (table_view table.now) }
{
    match value_at(table, "wishes") {
        None => true,
        Some(Value::Array(values)) => are_few_texts(values.as_slice()),
        Some(_) => false,
    }
}

/// The numbers of the weather, where the wishes are texts.
#[tactic(auto, unfolding(crate::specs::Settings::run_values))]
fn run_values(table: &Table) -> Result<RunValues, SettingsFault>
    ensures { result ≡ run_values (table_view table.now) }
{
    let seed = seed_at(table)?;
    let lose = number_or(table, "lose", 0, 1_000, 0)?;
    let twice = number_or(table, "twice", 0, 1_000, 0)?;
    let late = number_or(table, "late", 0, 1_000, 0)?;
    if !has_wish_texts(table) {
        return Err(SettingsFault::Value);
    }
    Ok(RunValues {
        seed,
        lose,
        twice,
        late,
    })
}

/// The weather of these numbers.
fn weather_of(run: &RunValues) -> Result<Weather, SettingsFault>
    ensures { result ≡ weather_of run.now }
{
    match Weather::of(run.seed, run.lose, run.twice, run.late) {
        Ok(weather) => Ok(weather),
        Err(fault) => Err(SettingsFault::Weather(fault)),
    }
}

/// The wish, where there are so many ballots that one stands at its place.
fn if_placed(count: u8, wish: Wish) -> Result<Wish, SettingsFault>
    ensures { result ≡ if_placed count wish }
{
    if wish.place > count {
        return Err(SettingsFault::Wish(LineFault::Number));
    }
    Ok(wish)
}

/// The wish that a value is, where there are so many clients and ballots.
fn wish_from(clients: u16, count: u8, value: &Value) -> Result<Wish, SettingsFault>
    ensures { result ≡ wish_from clients count (as_str (view value.now)) }
{
    let Some(text) = value.as_str() else {
        return Err(SettingsFault::Value);
    };
    match read_wish_among(clients, text.as_bytes()) {
        Ok(wish) => if_placed(count, wish),
        Err(fault) => Err(SettingsFault::Wish(fault)),
    }
}

/// The wishes that the values are.
fn wish_list(
    alloc: Global,
    clients: u16,
    count: u8,
    values: &[Value],
) -> Result<Vec<Wish>, SettingsFault>
    ensures { Judges (λ v. v.items) result (wishes_in clients count (items_view values.now)) }
{
    let mut wishes = Vec::new(alloc);
    for value in values {
        let wish = match wish_from(clients, count, value) {
            Ok(wish) => wish,
            Err(fault) => return Err(fault),
        };
        if wishes.push(wish).is_err() {
            return Err(SettingsFault::Memory);
        }
    }
    Ok(wishes)
}

/// The wishes.
fn wishes_at(
    alloc: Global,
    clients: u16,
    count: u8,
    table: &Table,
) -> Result<Vec<Wish>, SettingsFault>
    ensures { Judges (λ v. v.items) result (wishes_at clients count (table_view table.now)) }
{
    match value_at(table, "wishes") {
        Some(Value::Array(values)) => wish_list(alloc, clients, count, values.as_slice()),
        _ => Ok(Vec::new(alloc)),
    }
}

/// What the values say.
#[tactic(auto, unfolding(crate::specs::Settings::values_of))]
fn values_of(alloc: Global, command: Command, table: &Table) -> Result<Start, SettingsFault>
    ensures start { Judges given result (values_of command (table_view table.now)) }
    ensures wishes { IfOk result (λ s. AreAmong s.settings.clients s.settings.ballots s.wishes.items) }
    ensures in_range { IfOk result (λ s. (1 ≤ s.settings.clients) × (s.settings.clients ≤ MAX_CLIENTS)) }
{
    let run = run_values(table)?;
    let settings = world_of(alloc, command, table)?;
    let weather = weather_of(&run)?;
    let wishes = wishes_at(alloc, settings.clients, settings.ballots.count(), table)?;
    Ok(Start {
        settings,
        weather,
        wishes,
    })
}

/// What the settings of a command say.
///
/// # Errors
///
/// The first that applies: they aren't UTF-8 text that `toml` accepts (`NoDocument`, 921); a key of
/// the document isn't one of `votes`, `read`, `write`, `problem`, `clients`, `more`, `seed`, `lose`,
/// `twice`, `late`, `wishes` (`UnknownKey`, 923); one of the first five is missing, but for `problem` and
/// `clients` where the ballot is asked for, or a value is of another kind or out of range (`Value`,
/// 922), as is a table of `more` that has other keys than `votes`, `read` and `write`, or not all three;
/// the votes make no ballot (`Ballot`, 201 to 205), the first ballot's before those of `more`, in order;
/// the ballots make no list (206 to 208); `lose`, `twice` and `late` are over a thousand together
/// (`Weather`, 901); a wish is none, the first of them that isn't (`Wish`, 801 to 805), where a client
/// behind the last one is 802 and a place behind the last ballot 803. Or memory was refused (`Memory`,
/// 925).
///
/// The first ballot stands at place 1, and those of `more` behind it. A number that is missing and may be
/// is 0, and then there are no wishes and no more ballots. Where the ballot is asked
/// for, `problem` is 1 and there are 1,024 clients unless they are given.
pub fn read_settings(alloc: Global, command: Command, head: &[u8]) -> Result<Start, SettingsFault>
    ensures start { Judges given result (settings_of command head.now) }
    ensures wishes { IfOk result (λ s. AreAmong s.settings.clients s.settings.ballots s.wishes.items) }
    ensures in_range { IfOk result (λ s. (1 ≤ s.settings.clients) × (s.settings.clients ≤ MAX_CLIENTS)) }
{
    let Ok(text) = str::from_utf8(head) else {
        return Err(SettingsFault::NoDocument);
    };
    let table = match toml::table_from_str(alloc, text) {
        Ok(table) => table,
        Err(error) => {
            if error.is_memory() {
                return Err(SettingsFault::Memory);
            }
            return Err(SettingsFault::NoDocument);
        }
    };
    if !has_known_keys(&table) {
        return Err(SettingsFault::UnknownKey);
    }
    values_of(alloc, command, &table)
}

ghost use Rattle.std.specs.Prelude.{◌≡◌, ◌≤◌, IfSome, IfOk, IfErr, List, map, option_map, option_copied, string_bytes};
ghost use Rattle.std.specs.BTreeMap.{keys};
ghost use Rattle.std.specs.List.{list_all};
ghost use Rattle.toml.specs.Data.{get_member};
ghost use Rattle.toml.specs.View.{view, table_view};
ghost use Rattle.ecp_command.specs.Input.Settings.{key, number_in, path_in, number_of, cyclic_of, is_setting, has_settings_only, head_of, IsInRange, GivesHead, MayRefuseHead};

use crate::input::defaults::{DEFAULT_SLICE, DEFAULT_WINDOW, DEFAULT_WORKERS};
use crate::input::head::Head;
use crate::input::refusal::Refusal;
use crate::input::setting::Setting;
use ecp_shape::limits::{MAX_BLOCK, MAX_NODES, MAX_ROWS, MAX_WINDOW, MAX_WORKERS};
use std::alloc::Global;
use toml::{Table, Value};

const SETTINGS: [Setting; 8] = [
    Setting::K,
    Setting::N,
    Setting::Nodes,
    Setting::Block,
    Setting::Slice,
    Setting::Window,
    Setting::Workers,
    Setting::Path,
];

/// The settings that the text of a head gives.
pub(crate) fn read_head(alloc: Global, text: &[u8]) -> Result<Head, Refusal>
    ensures gives { IfOk result (GivesHead text.now) }
    ensures in_range { IfOk result IsInRange }
    ensures refused { IfErr result (MayRefuseHead text.now) }
{
    match toml::table_from_slice(alloc, text) {
        Ok(table) => settings(&table),
        Err(error) if error.is_memory() => Err(Refusal::NoMemory),
        Err(_) => Err(Refusal::NotToml),
    }
}

// The settings of a head, or the first fault of its keys.
#[tactic(auto, unfolding(crate::specs::Input::Settings::head_of))]
fn settings(table: &Table) -> Result<Head, Refusal>
    ensures value { result ≡ head_of (table_view table.now) }
    ensures in_range { IfOk result IsInRange }
{
    let k = number(table, Setting::K, 1, MAX_ROWS - 1, None)?;
    let n = number(table, Setting::N, k + 1, MAX_ROWS, None)?;
    let nodes = number(table, Setting::Nodes, n, MAX_NODES, None)?;
    let block = number(table, Setting::Block, 1, MAX_BLOCK, None)?;
    let slice = number(
        table,
        Setting::Slice,
        1,
        block,
        Some(block.min(DEFAULT_SLICE)),
    )?;
    let window = number(table, Setting::Window, 1, MAX_WINDOW, Some(DEFAULT_WINDOW))?;
    let workers = number(
        table,
        Setting::Workers,
        0,
        MAX_WORKERS,
        Some(DEFAULT_WORKERS),
    )?;
    let cyclic = cyclic(table)?;
    if !only_settings(table) {
        return Err(Refusal::UnknownKey);
    }
    Ok(Head {
        k,
        n,
        nodes,
        block,
        slice,
        window,
        workers,
        cyclic,
    })
}

// The value at the key of a setting.
fn value_at(table: &Table, setting: Setting) -> Option<&Value>
    ensures { option_map (λ v. view v.now) result ≡ get_member (key setting) (table_view table.now) }
{
    table.get(setting.key())
}

// The number of a setting, or the refusal of its key.
#[tactic(auto, unfolding(crate::specs::Input::Settings::number_of))]
fn number(
    table: &Table,
    setting: Setting,
    low: u32,
    high: u32,
    default: Option<u32>,
) -> Result<u32, Refusal>
    requires { IfSome default (λ d. (low ≤ d) × (d ≤ high)) }
    ensures value { result ≡ number_of setting low high default (table_view table.now) }
    ensures range { IfOk result (λ x. (low ≤ x) × (x ≤ high)) }
{
    number_in(value_at(table, setting), low, high, default).ok_or(Refusal::Key(setting))
}

// A whole number in a range, both ends in it, or the default where there is no value.
fn number_in(value: Option<&Value>, low: u32, high: u32, default: Option<u32>) -> Option<u32>
    requires { IfSome default (λ d. (low ≤ d) × (d ≤ high)) }
    ensures range { IfSome result (λ x. (low ≤ x) × (x ≤ high)) }
    ensures value { result ≡ number_in low high default (option_map (λ v. view v.now) value.entry) }
{
    let Some(value) = value else {
        return default;
    };
    match value.as_integer() {
        Some(x) if i64::from(low) <= x && x <= i64::from(high) => Some(x as u32),
        Some(_) | None => None,
    }
}

// Whether the path is cyclic, or the refusal of its key.
#[tactic(auto, unfolding(crate::specs::Input::Settings::cyclic_of))]
fn cyclic(table: &Table) -> Result<bool, Refusal>
    ensures { result ≡ cyclic_of (table_view table.now) }
{
    path_in(value_at(table, Setting::Path)).ok_or(Refusal::Key(Setting::Path))
}

// Whether the path is cyclic. The one path is the linear one, which is also the default.
fn path_in(value: Option<&Value>) -> Option<bool>
    ensures { result ≡ path_in (option_map (λ v. view v.now) value.entry) }
{
    let Some(value) = value else {
        return Some(false);
    };
    match value.as_str() {
        Some(text) if text == "linear" => Some(false),
        Some(_) | None => None,
    }
}

// Whether each key of the head is that of a setting.
fn only_settings(table: &Table) -> bool
    ensures { result ≡ has_settings_only (table_view table.now) }
{
    table.keys().all(|name| is_setting(name.as_str()))
}

fn is_setting(name: &str) -> bool
    ensures { result ≡ is_setting name.now }
{
    SETTINGS.iter().any(|setting| name == setting.key())
}

// What a configuration that is taken has.
ghost use Rattle.std.specs.Prelude.{◌≡◌, ℕ, ◌++◌, codes, length, OnOk};
ghost use Rattle.std.specs.List.{AllByRecursion, flat_map};
ghost use Rattle.uw_check.specs.Reports.{shown_area, areas_listed, shown_cache, caches_listed, count_text, parts_text, rules_text, site_line, socket_text};
ghost use Rattle.uw_conf.specs.Sound.{ArePartsOfSite};
ghost use Rattle.uw_model.specs.AreaOps.{IsAreaSize};
ghost use Rattle.uw_model.specs.Entries.{IsCacheConf};
ghost use Rattle.uw_model.specs.declared.conf.CacheConf.{CacheConf};
ghost use Rattle.uw_rules.specs.Compiled.{rules_of};

use crate::parts::{
    put, put_count, put_shown, says_nothing, section_of, setting_of, without_return,
};
use uw_base::texts::{is, trim_blanks};
use uw_base::{Bytes, Memory, put_decimal};
use uw_conf::Conf;
use uw_model::{CacheConf, area_words, words_of};
use uw_rules::RuleTable;

/// Options that are taken and have no effect here, those among them that wait for workers.
const IDLE: [&[u8]; 25] = [
    b"spooler",
    b"master",
    b"vacuum",
    b"die-on-term",
    b"plugin",
    b"plugins",
    b"need-app",
    b"strict",
    b"disable-logging",
    b"chmod-socket",
    b"chown-socket",
    b"uid",
    b"gid",
    b"chdir",
    b"pidfile",
    b"threads",
    b"enable-threads",
    b"listen",
    b"thunder-lock",
    b"workers",
    b"processes",
    b"harakiri",
    b"cache-expire-freq",
    b"spooler-frequency",
    b"socket",
];

// Puts a cache, with its items and the bytes of its region.
fn put_cache(out: &mut Bytes, cache: &CacheConf) -> Result<(), Memory>
    requires { IsCacheConf cache.now }
    ensures { OnOk result (out.new ≡ out.old ++ shown_cache cache.now) }
{
    put_shown(out, cache.name.as_slice())?;
    out.append(b" ")?;
    put_count(out, cache.items, b"item", b"items")?;
    out.append(b" in ")?;
    put_decimal(out, 8 * words_of(cache))?;
    out.append(b" bytes")
}

// Puts each of the caches behind a comma.
fn put_more_caches(out: &mut Bytes, caches: &[CacheConf]) -> Result<(), Memory>
    requires { AllByRecursion IsCacheConf caches.now }
    ensures { OnOk result (out.new ≡ out.old ++ flat_map (λ (more : CacheConf). codes ", " ++ shown_cache more) caches.now) }
{
    for cache in caches {
        out.append(b", ")?;
        put_cache(out, cache)?;
    }
    Ok(())
}

// Puts the caches in brackets.
fn put_caches(out: &mut Bytes, caches: &[CacheConf]) -> Result<(), Memory>
    requires { AllByRecursion IsCacheConf caches.now }
    ensures { OnOk result (out.new ≡ out.old ++ caches_listed caches.now) }
{
    match caches {
        [] => Ok(()),
        [cache, rest @ ..] => {
            out.append(b" (")?;
            put_cache(out, cache)?;
            put_more_caches(out, rest)?;
            out.append(b")")
        }
    }
}

// Puts an area, with the bytes of its region.
fn put_area(out: &mut Bytes, size: u64) -> Result<(), Memory>
    requires { IsAreaSize size }
    ensures { OnOk result (out.new ≡ out.old ++ shown_area size) }
{
    put_decimal(out, size)?;
    out.append(b" in ")?;
    put_decimal(out, 8 * area_words(size))?;
    out.append(b" bytes")
}

// Puts each of the areas behind a comma.
fn put_more_areas(out: &mut Bytes, areas: &[u64]) -> Result<(), Memory>
    requires { AllByRecursion IsAreaSize areas.now }
    ensures { OnOk result (out.new ≡ out.old ++ flat_map (λ (more : ℕ). codes ", " ++ shown_area more) areas.now) }
{
    for size in areas {
        out.append(b", ")?;
        put_area(out, *size)?;
    }
    Ok(())
}

// Puts the areas in brackets.
fn put_areas(out: &mut Bytes, areas: &[u64]) -> Result<(), Memory>
    requires { AllByRecursion IsAreaSize areas.now }
    ensures { OnOk result (out.new ≡ out.old ++ areas_listed areas.now) }
{
    match areas {
        [] => Ok(()),
        [size, rest @ ..] => {
            out.append(b" (")?;
            put_area(out, *size)?;
            put_more_areas(out, rest)?;
            out.append(b")")
        }
    }
}

// Puts how many caches and areas there are, and each of them.
fn put_parts(out: &mut Bytes, caches: &[CacheConf], areas: &[u64]) -> Result<(), Memory>
    requires { ArePartsOfSite caches.now areas.now }
    ensures { OnOk result (out.new ≡ out.old ++ parts_text caches.now areas.now) }
{
    put_count(out, caches.len() as u64, b"cache", b"caches")?;
    put_caches(out, caches)?;
    out.append(b", ")?;
    put_count(out, areas.len() as u64, b"area", b"areas")?;
    put_areas(out, areas)
}

// Puts how many rules a table has.
fn put_rule_count(out: &mut Bytes, rules: &RuleTable, one: &[u8], more: &[u8]) -> Result<(), Memory>
    ensures { OnOk result (out.new ≡ out.old ++ codes ", " ++ count_text (length (rules_of rules.now)) one.now more.now) }
{
    out.append(b", ")?;
    put_count(out, rules.len() as u64, one, more)
}

// Puts how many rules there are.
fn put_rules(out: &mut Bytes, routes: &RuleTable, tasks: &RuleTable) -> Result<(), Memory>
    ensures { OnOk result (out.new ≡ out.old ++ rules_text routes.now tasks.now) }
{
    put_rule_count(out, routes, b"rule of requests", b"rules of requests")?;
    put_rule_count(out, tasks, b"rule of tasks", b"rules of tasks")
}

// Puts the socket, if there is one.
fn put_socket(out: &mut Bytes, socket: &[u8]) -> Result<(), Memory>
    ensures { OnOk result (out.new ≡ out.old ++ socket_text socket.now) }
{
    if socket.is_empty() {
        return out.append(b", no socket");
    }
    out.append(b", socket ")?;
    put_shown(out, socket)
}

/// Puts a line that says what the site has.
pub fn put_site(out: &mut Bytes, path: &[u8], conf: &Conf) -> Result<(), Memory>
    requires { ArePartsOfSite conf.now.caches conf.now.areas }
    ensures { OnOk result (out.new ≡ out.old ++ site_line path.now conf.now) }
{
    out.append(path)?;
    out.append(b": taken: ")?;
    put_parts(out, conf.caches.as_slice(), conf.areas.as_slice())?;
    put_rules(out, &conf.routes, &conf.tasks)?;
    out.append(b", ")?;
    put_count(out, u64::from(conf.workers), b"worker", b"workers")?;
    put_socket(out, conf.socket.as_slice())?;
    out.append(b"\n")
}

// Whether the section `uwsgi` of a text has an option.
fn has_option(text: &[u8], name: &[u8]) -> bool {
    let mut is_inside = false;
    for line in text.split(|byte| *byte == b'\n') {
        let line = trim_blanks(without_return(line));
        if let Some(section) = section_of(line) {
            is_inside = is(section, b"uwsgi");
        } else if is_inside && !says_nothing(line) {
            if let Some(setting) = setting_of(line) {
                if is(setting.name, name) {
                    return true;
                }
            }
        }
    }
    false
}

/// Puts a line that names the options of a text which have no effect here; nothing where there are none.
pub fn put_idle(out: &mut Bytes, path: &[u8], text: &[u8]) -> Result<(), Memory> {
    let mut is_first = true;
    for name in &IDLE {
        if has_option(text, name) {
            if is_first {
                put(out, &[path, b": without effect here: "])?;
            } else {
                out.append(b", ")?;
            }
            put(out, &[b"`", name, b"`"])?;
            is_first = false;
        }
    }
    out.append(if is_first { b"" } else { b"\n" })
}

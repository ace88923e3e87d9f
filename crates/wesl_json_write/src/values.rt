//! A value that is built of what a sink is told.
ghost use Rattle.std.specs.Prelude.{◌≡◌, [], ◌∷◌, ◌++◌, None, Some, false, IfOk, IfSome, OnOk};
ghost use Rattle.serde_json.specs.View.{view, members_view};
ghost use Rattle.wesl_json_print_nodes.specs.Events.{gives};
ghost use Rattle.wesl_json_write.specs.Building.{put_all};
ghost use Rattle.wesl_json_write.specs.Holds.{pairs_of};

use serde_json::{Map, Number, Value};
use std::alloc::{AllocError, Global};
use wesl_json_print_nodes::Sink;

/// A list or an object that has not ended.
#[derive(Drop)]
pub(crate) enum Open {
    /// the items so far
    Items(Vec<Value>),
    /// the members so far, and the key of the next
    Members(Vec<(String, Value)>, Option<String>),
}

/// A sink that builds the value that it is told.
#[derive(Drop)]
pub(crate) struct ValueSink {
    alloc: Global,
    /// what has not ended, the inmost last
    open: Vec<Open>,
    /// the value that stands alone
    done: Option<Value>,
    /// whether memory was wanting, or what was told is no value
    is_refused: bool,
}

// The members as an object has them: the last is put first, so that of two with one key the first stays.
fn map_of(alloc: Global, members: Vec<(String, Value)>) -> Result<Map<String, Value>, AllocError>
    ensures { IfOk result (λ m. members_view m.entries ≡ put_all (pairs_of members.items)) }
{
    let mut members = members;
    let mut map = Map::new(alloc);
    'members: while let Some(member) = members.pop() {
        let (key, value) = member;
        serde_json::put(&mut map, alloc, key.as_str(), value)?;
    }
    Ok(map)
}

// The list with a further item, unless memory is wanting for it.
fn with_item<T: Drop>(list: Vec<T>, item: T) -> Option<Vec<T>>
    ensures { IfSome result (λ v. v.items ≡ list.items ++ item ∷ []) }
{
    let mut list = list;
    match list.push(item) {
        Ok(()) => Some(list),
        Err(_) => None,
    }
}

impl ValueSink {
    ghost use Rattle.wesl_json_write.specs.Holds.{Builds, Opens, TakesAt, TakesIn, state_of};

    /// Nothing is built yet.
    pub(crate) fn new(alloc: Global) -> ValueSink
        ensures { state_of result ≡ ([], None) }
    {
        ValueSink {
            alloc,
            open: Vec::new(alloc),
            done: None,
            is_refused: false,
        }
    }

    /// The value that was built, unless memory was wanting for it.
    pub(crate) fn end(self) -> Result<Value, AllocError>
        ensures given { IfOk result (λ v. self.done ≡ Some v) }
        ensures noted { OnOk result (self.is_refused ≡ false) }
    {
        let ValueSink {
            alloc: _,
            open: _,
            done,
            is_refused,
        } = self;
        match (is_refused, done) {
            (false, Some(value)) => Ok(value),
            (_, _done) => Err(AllocError),
        }
    }

    // A level more.
    fn put(&mut self, level: Open)
        ensures { Opens level self.old self.new }
    {
        if self.open.push(level).is_err() {
            self.is_refused = true;
        }
    }

    // A value comes.
    fn take(&mut self, value: Value)
        ensures { Builds (gives (view value) ∷ []) self.old self.new }
    {
        match self.open.pop() {
            None => {
                self.done = Some(value);
            }
            Some(Open::Items(items)) => self.take_in(items, value),
            Some(Open::Members(members, key)) => self.take_at(members, key, value),
        }
    }

    // A value comes behind these items.
    fn take_in(&mut self, items: Vec<Value>, value: Value)
        ensures { TakesIn items value self.old self.new }
    {
        match with_item(items, value) {
            Some(items) => self.put(Open::Items(items)),
            None => {
                self.is_refused = true;
            }
        }
    }

    // A value comes behind these members, at this key.
    fn take_at(&mut self, members: Vec<(String, Value)>, key: Option<String>, value: Value)
        ensures { TakesAt members key value self.old self.new }
    {
        let Some(key) = key else {
            self.is_refused = true;
            return;
        };
        match with_item(members, (key, value)) {
            Some(members) => self.put(Open::Members(members, None)),
            None => {
                self.is_refused = true;
            }
        }
    }
}

impl Sink for ValueSink {
    ghost use Rattle.wesl_json_write.specs.Holds.{Builds, builds_none, builds_more};

    ghost after = { Builds };

    fn begin(&mut self) {
        self.put(Open::Members(Vec::new(self.alloc), None));
    }

    fn close(&mut self) {
        match self.open.pop() {
            Some(Open::Members(members, _key)) => match map_of(self.alloc, members) {
                Ok(map) => self.take(Value::Object(map)),
                Err(_) => {
                    self.is_refused = true;
                }
            },
            _ => {
                self.is_refused = true;
            }
        }
    }

    fn begin_list(&mut self) {
        self.put(Open::Items(Vec::new(self.alloc)));
    }

    fn close_list(&mut self) {
        match self.open.pop() {
            Some(Open::Items(items)) => self.take(Value::Array(items)),
            _ => {
                self.is_refused = true;
            }
        }
    }

    fn key(&mut self, key: &str) {
        match self.open.pop() {
            Some(Open::Members(members, _key)) => match String::from_str(self.alloc, key) {
                Ok(key) => self.put(Open::Members(members, Some(key))),
                Err(_) => {
                    self.is_refused = true;
                }
            },
            _ => {
                self.is_refused = true;
            }
        }
    }

    fn text(&mut self, text: &str) {
        match String::from_str(self.alloc, text) {
            Ok(text) => self.take(Value::String(text)),
            Err(_) => {
                self.is_refused = true;
            }
        }
    }

    fn truth(&mut self, truth: bool) {
        self.take(Value::Bool(truth));
    }

    fn number(&mut self, whole: u32) {
        self.take(Value::Number(Number::from(u64::from(whole))));
    }

    fn refuse(&mut self) {
        self.is_refused = true;
    }

    ghost none = { builds_none };

    ghost more = { builds_more };
}

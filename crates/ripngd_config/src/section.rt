//! Reads a TOML table key by key. A missing or wrong value ends it with a refusal that has the path of the key.

ghost use Rattle.std.specs.Prelude.{◌≡◌, [], true, false, IfErr, IfOk, OnOk, None, Some, is_none, is_some, map, option_map};
ghost use Rattle.ripngd_config.specs.Common.{Data, Members, get_member, table_view, view, KeyHas, KindHas, RefusesKey, TableHas, OtherHas, HasOnlyOf, Keys, Kind, address, array, number, prefix, table, truth, IsAddress, IsArray, IsItem, IsNumber, IsPrefixValue, IsReadAt, IsSomeNumber, IsTruth};

use crate::fault::{ConfigFault, Read};
use prefix6::{Addr6, Prefix, parse_addr, parse_prefix};
use std::alloc::{AllocError, Global};
use toml::{Table, Value};

/// A table, and the head of the paths of its keys: `interface[0].peer[1].`, or nothing at the top.
#[derive(Clone, Copy)]
pub(crate) struct Section<'a> {
    pub alloc: Global,
    pub table: &'a Table,
    pub path: &'a str,
}

impl<'a> Section<'a> {
    /// The value of a key.
    fn get(&self, key: &str) -> Option<&'a Value>
        ensures { option_map (λ v. view v.now) result ≡ get_member key.now (table_view self.now.table.now) }
    {
        self.table.get(key)
    }

    /// Whether the table has a key.
    pub fn has(&self, key: &str) -> bool
        ensures { result ≡ is_some (get_member key.now (table_view self.now.table.now)) }
    {
        self.get(key).is_some()
    }

    fn path_of(&self, key: &str) -> Result<String, AllocError> {
        format!(in self.alloc; "{}{key}", self.path)
    }

    /// The number of a key, from `low` to `high`; without a default the key is required.
    pub fn number(&self, key: &str, low: u64, high: u64, default: Option<u64>) -> Read<u64>
        ensures read { IfOk result (IsReadAt (IsNumber low high) key.now default (table_view self.now.table.now)) }
        ensures fault { IfErr result (RefusesKey (KeyHas key.now (is_none default) (number low high) (table_view self.now.table.now))) }
    {
        let Some(value) = self.get(key) else {
            return match default {
                Some(number) => Ok(number),
                None => Err(ConfigFault::MissingKey(self.path_of(key)?)),
            };
        };
        let Some(number) = value.as_integer() else {
            return Err(ConfigFault::WrongType(self.path_of(key)?));
        };
        match u64::try_from(number) {
            Ok(number) if low <= number && number <= high => Ok(number),
            _ => Err(ConfigFault::BadValue(self.path_of(key)?)),
        }
    }

    /// The number of an optional key, from `low` to 65,535.
    pub fn optional_number(&self, key: &str, low: u64) -> Read<Option<u16>>
        ensures read { IfOk result (IsReadAt (IsSomeNumber low 65535) key.now (Some None) (table_view self.now.table.now)) }
        ensures fault { IfErr result (RefusesKey (KeyHas key.now false (number low 65535) (table_view self.now.table.now))) }
    {
        match self.get(key) {
            Some(_) => Ok(Some(self.number(key, low, 65_535, None)? as u16)),
            None => Ok(None),
        }
    }

    /// The number of an optional key that counts routes, from 1 to 65,536.
    pub fn optional_count(&self, key: &str) -> Read<Option<u32>>
        ensures read { IfOk result (IsReadAt (IsSomeNumber 1 65536) key.now (Some None) (table_view self.now.table.now)) }
        ensures fault { IfErr result (RefusesKey (KeyHas key.now false (number 1 65536) (table_view self.now.table.now))) }
    {
        match self.get(key) {
            Some(_) => Ok(Some(self.number(key, 1, 65_536, None)? as u32)),
            None => Ok(None),
        }
    }

    /// The address of a required key.
    pub fn address(&self, key: &str) -> Read<Addr6>
        ensures read { IfOk result (IsReadAt IsAddress key.now None (table_view self.now.table.now)) }
        ensures fault { IfErr result (RefusesKey (KeyHas key.now true address (table_view self.now.table.now))) }
    {
        let Some(value) = self.get(key) else {
            return Err(ConfigFault::MissingKey(self.path_of(key)?));
        };
        let Some(text) = value.as_str() else {
            return Err(ConfigFault::WrongType(self.path_of(key)?));
        };
        match parse_addr(text) {
            Ok(addr) => Ok(addr),
            Err(_) => Err(ConfigFault::BadValue(self.path_of(key)?)),
        }
    }

    /// The prefix of a required key.
    pub fn prefix(&self, key: &str) -> Read<Prefix>
        ensures read { IfOk result (IsReadAt IsPrefixValue key.now None (table_view self.now.table.now)) }
        ensures fault { IfErr result (RefusesKey (KeyHas key.now true prefix (table_view self.now.table.now))) }
    {
        let Some(value) = self.get(key) else {
            return Err(ConfigFault::MissingKey(self.path_of(key)?));
        };
        let Some(text) = value.as_str() else {
            return Err(ConfigFault::WrongType(self.path_of(key)?));
        };
        match parse_prefix(text) {
            Ok(prefix) => Ok(prefix),
            Err(_) => Err(ConfigFault::BadValue(self.path_of(key)?)),
        }
    }

    /// The boolean of a key, or the default.
    pub fn truth(&self, key: &str, default: bool) -> Read<bool>
        ensures read { IfOk result (IsReadAt IsTruth key.now (Some default) (table_view self.now.table.now)) }
        ensures fault { IfErr result (RefusesKey (KeyHas key.now false truth (table_view self.now.table.now))) }
    {
        let Some(value) = self.get(key) else {
            return Ok(default);
        };
        match value.as_bool() {
            Some(truth) => Ok(truth),
            None => Err(ConfigFault::WrongType(self.path_of(key)?)),
        }
    }

    /// Refuses the first unknown key, in the order of bytes.
    pub fn only(&self, known: &[&str]) -> Read<()>
        ensures only { OnOk result (HasOnlyOf (map (λ k. k.now) known.now) (table_view self.now.table.now)) }
        ensures fault { IfErr result (RefusesKey (OtherHas (map (λ k. k.now) known.now) (table_view self.now.table.now))) }
    {
        for key in self.table.keys() {
            if !known.contains(&key.as_str()) {
                return Err(ConfigFault::UnknownKey(self.path_of(key.as_str())?));
            }
        }
        Ok(())
    }
}

/// A value that is read from a whole table.
pub(crate) trait FromSection: Sized {
    // The keys that such a table may have.
    ghost keys: { Members → Keys };

    // Which value a table is read as.
    ghost is_read: { Members → Self → Type 0 };

    /// Reads the keys of the table in order, and refuses any other.
    fn from_section(section: Section<'_>) -> Read<Self>
        ensures read { IfOk result (is_read (table_view section.entry.table.now)) }
        ensures fault { IfErr result (RefusesKey (TableHas keys (table_view section.entry.table.now))) };
}

/// A value that is read from one member of an array.
pub(crate) trait FromItem: Sized {
    // What such a member holds.
    ghost kind: { Kind };

    // Which value it is read as.
    ghost is_item: { Data → Self → Type 0 };

    /// Reads a member of an array of this section, of which this is the path.
    fn from_item(section: Section<'_>, path: String, item: &Value) -> Read<Self>
        ensures read { IfOk result (is_item (view item.now)) }
        ensures fault { IfErr result (RefusesKey (KindHas kind (view item.now))) };
}

/// A member of an array that must be a table.
impl<T: FromSection> FromItem for T {
    ghost kind = { table T.keys };

    ghost is_item = { IsItem T.is_read };

    fn from_item(section: Section<'_>, path: String, item: &Value) -> Read<T> {
        let Some(table) = item.as_table() else {
            return Err(ConfigFault::WrongType(path));
        };
        let path = format!(in section.alloc; "{path}.")?;
        T::from_section(Section {
            table,
            path: path.as_str(),
            ..section
        })
    }
}

/// The members of the array of a key, in order; an empty list if there is no such key.
pub(crate) fn items_at<T: FromItem + Drop>(section: Section<'_>, key: &str) -> Read<Vec<T>>
    ensures read { IfOk result (λ v. IsReadAt (IsArray T.is_item) key.now (Some []) (table_view section.entry.table.now) v.items) }
    ensures fault { IfErr result (RefusesKey (KeyHas key.now false (array T.kind) (table_view section.entry.table.now))) }
{
    let Some(value) = section.get(key) else {
        return Ok(Vec::new(section.alloc));
    };
    let Some(array) = value.as_array() else {
        return Err(ConfigFault::WrongType(section.path_of(key)?));
    };
    let items = array.as_slice();
    let mut found = Vec::with_capacity(section.alloc, items.len())?;
    for (index, item) in items.iter().enumerate() {
        let path = format!(in section.alloc; "{}{key}[{index}]", section.path)?;
        found.push_reserved(T::from_item(section, path, item)?);
    }
    Ok(found)
}

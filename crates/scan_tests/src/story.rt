//! What machines did, as a text: a line for each call, for each answer, and for each pair of a leaf.

use cloud_trait::call::Call;
use cloud_trait::turn::Turn;
use db_base::ids::PageId;
use db_base::trouble::Trouble;
use db_base::value::Value;
use range_scan::Items;
use reply_text::call_text;
use reply_text::write::trouble_text;
use report_types::pair_list::PairList;
use std::alloc::Global;
use std::test::Fail;
use words::bytes::hexadecimal;

#[derive(Drop)]
pub(crate) struct Story {
    alloc: Global,
    text: String,
}

impl Story {
    pub(crate) fn new(alloc: Global) -> Story {
        Story {
            alloc,
            text: String::new(alloc),
        }
    }

    /// Whether this was to be told.
    pub(crate) fn is(&self, wanted: &str) -> Result<(), Fail> {
        if self.text.as_str() == wanted {
            Ok(())
        } else {
            Err(Fail::from("another story"))
        }
    }

    /// Adds a line.
    fn line(&mut self, text: &str) -> Result<(), Fail> {
        self.text.push_str(text)?;
        self.text.push_str("\n")?;
        Ok(())
    }

    /// Adds a word and a number.
    pub(crate) fn number(&mut self, word: &str, number: u64) -> Result<(), Fail> {
        let text = format!(in self.alloc; "{word} {number}")?;
        self.line(text.as_str())
    }

    /// Adds bytes in hexadecimal.
    fn bytes(&mut self, bytes: &[u8]) -> Result<(), Fail> {
        let text = hexadecimal(self.alloc, bytes)?;
        self.line(text.as_str())
    }

    /// Adds a payload and an attribute, where there is one, in hexadecimal.
    fn parts(&mut self, payload: &[u8], attr: Option<&[u8]>) -> Result<(), Fail> {
        let Some(attr) = attr else {
            return self.bytes(payload);
        };
        let payload = hexadecimal(self.alloc, payload)?;
        self.text.push_str(payload.as_str())?;
        self.text.push_str(" ")?;
        self.bytes(attr)
    }

    /// Adds a call.
    pub(crate) fn call(&mut self, call: &Call<'_>) -> Result<(), Fail> {
        let text = call_text(self.alloc, call)?;
        self.line(text.as_str())
    }

    /// Adds a trouble.
    pub(crate) fn trouble(&mut self, trouble: &Trouble) -> Result<(), Fail> {
        let text = trouble_text(self.alloc, trouble).ok().ok_or("no text")?;
        self.line(text.as_str())
    }

    /// Adds the leaf at which a machine ended, or its trouble; false where it goes on.
    pub(crate) fn end(&mut self, turn: &Turn<PageId>) -> Result<bool, Fail> {
        match turn {
            Turn::More => return Ok(false),
            Turn::Ended(page) => self.number("leaf", page.get())?,
            Turn::Stopped(trouble) => self.trouble(trouble)?,
        }
        Ok(true)
    }

    /// Adds the value that was read.
    pub(crate) fn value(&mut self, value: Option<Value<'_>>) -> Result<(), Fail> {
        match value {
            Some(value) => self.parts(value.payload(), value.attr()),
            None => self.line("none"),
        }
    }

    /// Adds a key, without ending its line.
    fn key(&mut self, key: &[u8]) -> Result<(), Fail> {
        let key = hexadecimal(self.alloc, key)?;
        self.text.push_str(key.as_str())?;
        self.text.push_str("=")?;
        Ok(())
    }

    /// Adds a key, a payload and an attribute, where there is one.
    fn pair(&mut self, key: &[u8], value: &Value<'_>) -> Result<(), Fail> {
        self.key(key)?;
        self.parts(value.payload(), value.attr())
    }

    /// Adds the pairs of a leaf.
    pub(crate) fn pairs(&mut self, items: Items<'_>) -> Result<(), Fail> {
        let mut items = items;
        for _ in 0..1000u64 {
            let Some((key, value)) = items.take_first() else {
                return Ok(());
            };
            self.pair(key, &value)?;
        }
        Err(Fail::from("more pairs than any tree of these tests has"))
    }

    fn record(&mut self, key: &[u8], payload: &[u8]) -> Result<(), Fail> {
        self.key(key)?;
        self.bytes(payload)
    }

    /// Adds how many records a look-up found, and each.
    pub(crate) fn found(&mut self, records: &PairList) -> Result<(), Fail> {
        self.number("found", records.len() as u64)?;
        let mut left = records.pairs();
        for _ in 0..1000u64 {
            let Some((key, payload, rest)) = left.split() else {
                return Ok(());
            };
            self.record(key, payload)?;
            left = rest;
        }
        Err(Fail::from("more records than any tree of these tests has"))
    }

    /// Adds the key at which a new scan goes on, where there is one.
    pub(crate) fn resume(&mut self, key: Option<&[u8]>) -> Result<(), Fail> {
        match key {
            Some(key) => self.bytes(key),
            None => self.line("none"),
        }
    }
}

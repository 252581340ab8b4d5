//! What is told of a whole configuration.
ghost use Rattle.std.specs.Prelude.{◌≡◌, IfOk};
ghost use Rattle.relay_conf.specs.Lines.{lines_of};
ghost use Rattle.relay_explain.specs.Entries.{entries_text};
ghost use Rattle.relay_explain.specs.Explained as terms;
ghost use Rattle.relay_explain.specs.Text.{Adds};

use crate::buffers::put_buffers;
use crate::entries::put_entries;
use crate::feeds::put_feeds;
use crate::found::Found;
use crate::groups::put_groups;
use crate::peers::put_peers;
use crate::settings::put_settings;
use crate::sums::put_wants;
use crate::text::Text;
use relay_conf::{Config, lines_of};
use std::alloc::{AllocError, Global};

/// The texts of the three files of a configuration.
#[derive(Drop)]
pub struct Sources {
    pub cycbuff: Vec<u8>,
    pub storage: Vec<u8>,
    pub relay: Vec<u8>,
}

/// The text of what a configuration does, which these texts say, and of what is odd in it; `found`
/// has what lies where the file of each buffer is to be, in the order of the buffers. The error is
/// want of memory.
pub fn explain(
    alloc: Global,
    config: &Config,
    sources: &Sources,
    found: &[Found],
) -> Result<Vec<u8>, AllocError>
    ensures { IfOk result (λ text. text.items
        ≡ terms.explained config.now sources.now found.now) }
{
    let text = put_cycbuff(alloc, Text::new(alloc), config, &sources.cycbuff, found);
    let text = put_storage(alloc, text, config, &sources.storage);
    let text = put_relay(alloc, text, config, &sources.relay);
    put_wants(text, config).whole()
}

/// Puts what is told of cycbuff.conf, of which this is the text.
fn put_cycbuff(alloc: Global, text: Text, config: &Config, source: &[u8], found: &[Found]) -> Text
    ensures { Adds text result
        (terms.cycbuff_text config.now (lines_of source.now) found.now) }
{
    match lines_of(alloc, source) {
        Ok(all) => {
            let lines = all.as_slice();
            let text = put_buffers(text, config, lines, found);
            put_groups(text, config, lines)
        }
        Err(error) => text.fail(error),
    }
}

/// Puts what is told of storage.conf, of which this is the text.
fn put_storage(alloc: Global, text: Text, config: &Config, source: &[u8]) -> Text
    ensures { Adds text result (entries_text config.now (lines_of source.now)) }
{
    match lines_of(alloc, source) {
        Ok(all) => put_entries(alloc, text, config, all.as_slice()),
        Err(error) => text.fail(error),
    }
}

/// Puts what is told of relay.conf, of which this is the text.
fn put_relay(alloc: Global, text: Text, config: &Config, source: &[u8]) -> Text
    ensures { Adds text result (terms.relay_text config.now (lines_of source.now)) }
{
    match lines_of(alloc, source) {
        Ok(all) => {
            let lines = all.as_slice();
            let text = put_settings(alloc, text, &config.relay, lines);
            let text = put_peers(alloc, text, &config.relay, lines);
            put_feeds(text, &config.relay, lines)
        }
        Err(error) => text.fail(error),
    }
}

//! What stands round the lines on the page.
ghost use Rattle.std.specs.Prelude.{◌≡◌, ◌++◌, OnOk, flat_map, map};
ghost use Rattle.relay_metrics.specs.Lines.{line_view};
ghost use Rattle.relay_page.specs.Page.{section_text, section_view};

use crate::rows::{Part, put_rows};
use relay_metrics::Line;
use std::alloc::AllocError;

/// What stands before all else on the page.
pub(crate) const HEAD: &[u8] = b"<!DOCTYPE html>
<html lang=\"en\">
<head>
<meta charset=\"utf-8\">
<meta name=\"viewport\" content=\"width=device-width, initial-scale=1\">
<title>cnrelay</title>
<style>
body{font:1em/1.4 sans-serif;margin:0 auto;max-width:60em;padding:.5em}
h3{margin:1em 0 .2em;overflow-wrap:anywhere}
p{margin:.2em 0}
span{display:inline-block;margin-right:1em}
.bar{background:#ddd;height:1em}
.bar div{background:#36c;height:1em}
.wide{overflow-x:auto}
table{border-collapse:collapse}
th,td{border:1px solid #bbb;padding:.2em .4em;text-align:right}
</style>
</head>
<body>
<h1>cnrelay</h1>
";

/// The heading of the buffers.
pub(crate) const BUFFERS: &[u8] = b"<h2>Buffers</h2>\n";

/// A section of the page: a part of it, and what stands before and behind that.
pub(crate) struct Section {
    pub opening: &'static [u8],
    pub part: Part,
    pub closing: &'static [u8],
}

/// The section before the buffers.
pub(crate) const FIRST: &Section = &Section {
    opening: HEAD,
    part: Part::Notice,
    closing: BUFFERS,
};

/// The sections behind the buffers of a relay that is served.
pub(crate) const OTHERS: &[Section] = &[
    Section {
        opening: b"",
        part: Part::Repaired,
        closing: b"",
    },
    Section {
        opening: b"<h2>Feeds</h2>\n",
        part: Part::Feeds,
        closing: b"",
    },
    Section {
        opening: b"<h2>Message-ids</h2>\n",
        part: Part::Ids,
        closing: b"",
    },
    Section {
        opening: b"<h2>Peers</h2>
<div class=\"wide\"><table>
<tr><th>peer</th><th>open</th><th>accepted</th><th>known</th>\
<th>refused</th><th>later</th><th>octets</th><th>offers</th></tr>
",
        part: Part::Peers,
        closing: b"</table></div>\n",
    },
    Section {
        opening: b"<h3>Refused, by reason</h3>
<div class=\"wide\"><table>
<tr><th>peer</th><th>more than maxart</th><th>no article</th>\
<th>another id</th><th>wrong Path</th><th>was here before</th>\
<th>wrong date</th><th>no entry of storage.conf</th>\
<th>larger than a buffer</th></tr>
",
        part: Part::Refusals,
        closing: b"</table></div>\n",
    },
    Section {
        opening: b"<h3>Newest connections</h3>\n<p>\n",
        part: Part::Addresses,
        closing: b"</p>\n",
    },
];

/// Puts these sections of these lines.
pub(crate) fn put_sections(
    text: &mut Vec<u8>,
    sections: &[Section],
    most: u64,
    lines: &[Line<'_>],
) -> Result<(), AllocError>
    ensures { OnOk result (text.new.items ≡ text.old.items
        ++ flat_map (section_text most (map line_view lines.now))
        (map section_view sections.now)) }
{
    for section in sections {
        put_section(text, section, most, lines)?;
    }
    Ok(())
}

/// Puts a section of these lines.
pub(crate) fn put_section(
    text: &mut Vec<u8>,
    section: &Section,
    most: u64,
    lines: &[Line<'_>],
) -> Result<(), AllocError>
    ensures { OnOk result (text.new.items ≡ text.old.items
        ++ section_text most (map line_view lines.now) (section_view section.now)) }
{
    text.extend_from_slice(section.opening)?;
    put_rows(text, section.part, most, lines)?;
    text.extend_from_slice(section.closing)
}

// Texts in XML.

use picture_svg::push_escaped;
use test_outcomes::{Outcome, check_row};

/// Rows of a text, and what stands for it.
const ROWS: [(&str, &str); 7] = [
    ("", ""),
    ("a-9", "a-9"),
    ("line 1: begin c1 read a", "line 1: begin c1 read a"),
    ("</text><script>", "&lt;/text&gt;&lt;script&gt;"),
    ("'\"&amp;", "&#39;&quot;&amp;amp;"),
    // Each sign that XML knows, as in a title.
    ("<>&\"'", "&lt;&gt;&amp;&quot;&#39;"),
    ("\u{e4}\n", "???"),
];

/// What would end a text or an attribute is written by name, and what is no letter as a question mark.
#[test]
fn texts_in_xml(rt: HostRuntime) -> Outcome {
    for (row, (text, told)) in ROWS.iter().enumerate() {
        let mut out = String::new(rt.alloc());
        push_escaped(&mut out, text.as_bytes())?;
        check_row(out.as_str() == *told, row)?;
    }
    Ok(())
}

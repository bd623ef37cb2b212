//! Lines of the text format of Prometheus.

ghost use Rattle.markup_text.specs.Growing.{Adds};
ghost use Rattle.page_text.specs.Samples.{counter, family, gauge, labelled, micro_sample, milli_sample, sample};
ghost use Rattle.page_text.specs.Samples.{peer_milli_sample, peer_sample};

use super::lines::{Lines, Part};

/// Adds the lines that say what a metric means and of which type it is.
pub fn add_family<'a>(text: &mut Lines, name: &'a str, kind: &'a str, help: &'a str)
    ensures { Adds (family name.now kind.now help.now) text.old text.new }
{
    text.add(&[
        Part::Text("# HELP "),
        Part::Text(name),
        Part::Text(" "),
        Part::Text(help),
        Part::Text("\n# TYPE "),
        Part::Text(name),
        Part::Text(" "),
        Part::Text(kind),
        Part::Text("\n"),
    ]);
}

/// Adds a sample without labels.
fn add_sample(text: &mut Lines, name: &str, value: u64)
    ensures { Adds (sample name.now value) text.old text.new }
{
    text.add(&[
        Part::Text(name),
        Part::Text(" "),
        Part::Number(value),
        Part::Text("\n"),
    ]);
}

/// Adds a sample with a label, whose value has no sign that would have to be escaped.
pub fn add_labelled<'a>(text: &mut Lines, name: &'a str, label: &'a str, is: &'a str, value: u64)
    ensures { Adds (labelled name.now label.now is.now value) text.old text.new }
{
    text.add(&[
        Part::Text(name),
        Part::Text("{"),
        Part::Text(label),
        Part::Text("=\""),
        Part::Text(is),
        Part::Text("\"} "),
        Part::Number(value),
        Part::Text("\n"),
    ]);
}

/// Adds a gauge: what it means, and its value.
pub fn add_gauge(text: &mut Lines, name: &str, help: &str, value: u64)
    ensures { Adds (gauge name.now help.now value) text.old text.new }
{
    add_family(text, name, "gauge", help);
    add_sample(text, name, value);
}

/// Adds a counter: what it means, and its value.
pub fn add_counter(text: &mut Lines, name: &str, help: &str, value: u64)
    ensures { Adds (counter name.now help.now value) text.old text.new }
{
    add_family(text, name, "counter", help);
    add_sample(text, name, value);
}

/// Adds a sample of a duration in seconds.
pub fn add_milliseconds(text: &mut Lines, name: &str, value: u64)
    ensures { Adds (milli_sample name.now value) text.old text.new }
{
    text.add(&[
        Part::Text(name),
        Part::Text(" "),
        Part::Number(value / 1000),
        Part::Text("."),
        Part::Number(value / 100 % 10),
        Part::Number(value / 10 % 10),
        Part::Number(value % 10),
        Part::Text("\n"),
    ]);
}

/// Adds a sample of a duration in seconds.
pub fn add_microseconds(text: &mut Lines, name: &str, value: u64)
    ensures { Adds (micro_sample name.now value) text.old text.new }
{
    let milliseconds = value / 1000;
    text.add(&[
        Part::Text(name),
        Part::Text(" "),
        Part::Number(value / 1_000_000),
        Part::Text("."),
        Part::Number(milliseconds / 100 % 10),
        Part::Number(milliseconds / 10 % 10),
        Part::Number(milliseconds % 10),
        Part::Number(value / 100 % 10),
        Part::Number(value / 10 % 10),
        Part::Number(value % 10),
        Part::Text("\n"),
    ]);
}

/// Adds a sample of a peer.
pub fn add_peer<'a>(text: &mut Lines, name: &'a str, peer: &'a str, value: u64)
    ensures { Adds (peer_sample name.now peer.now value) text.old text.new }
{
    text.add(&[
        Part::Text(name),
        Part::Text("{peer=\""),
        Part::Label(peer),
        Part::Text("\"} "),
        Part::Number(value),
        Part::Text("\n"),
    ]);
}

/// Adds a sample of a duration in seconds of a peer.
pub fn add_peer_milliseconds<'a>(text: &mut Lines, name: &'a str, peer: &'a str, value: u64)
    ensures { Adds (peer_milli_sample name.now peer.now value) text.old text.new }
{
    text.add(&[
        Part::Text(name),
        Part::Text("{peer=\""),
        Part::Label(peer),
        Part::Text("\"} "),
        Part::Number(value / 1000),
        Part::Text("."),
        Part::Number(value / 100 % 10),
        Part::Number(value / 10 % 10),
        Part::Number(value % 10),
        Part::Text("\n"),
    ]);
}

//! Templates, and words that are quoted for a shell.

use enqueue_lines::{
    Field, Template, TemplateFault, Values, add_quoted, quoted_words_are_read_again,
    values_are_read_outside_quotes,
};
use std::alloc::Global;
use std::test::Fail;

/// Words, and how they are written for a shell.
const WORDS: &[(&str, &str)] = &[
    ("", "''"),
    ("platform/tools-2.0_x", "platform/tools-2.0_x"),
    ("refs/heads/a:b,c@d%e+f=g", "refs/heads/a:b,c@d%e+f=g"),
    ("a b", "'a b'"),
    ("it's", r"'it'\''s'"),
    ("'", r"''\'''"),
    ("$(reboot)", "'$(reboot)'"),
    ("a\\b\n~", "'a\\b\n~'"),
    ("größe", "'größe'"),
];

#[test]
fn words_are_quoted(rt: HostRuntime) -> Result<(), Fail> {
    quoted_words_are_read_again();
    for (word, wanted) in WORDS {
        let mut text = Vec::new(rt.alloc());
        add_quoted(&mut text, word.as_bytes())?;
        assert_eq!(rt; text.as_slice(), wanted.as_bytes());
    }
    Ok(())
}

/// What is put in for the fields.
const VALUES: Values<'static> = Values {
    tenant: "main",
    pipeline: "gate",
    project: "a site",
    branch: "v1.0",
    change: 4294967295,
    set: 2,
};

/// A template's text with values put in.
fn filled(alloc: Global, template: &str) -> Result<Vec<u8>, Fail> {
    let mut text = Vec::new(alloc);
    match Template::read(alloc, template) {
        Ok(template) => template.add_filled(alloc, &mut text, &VALUES)?,
        Err(_) => return Err(Fail::from("a template")),
    }
    Ok(text)
}

/// Templates, and their texts.
const TEMPLATES: &[(&str, &str)] = &[
    ("", ""),
    ("no field }", "no field }"),
    (
        "{tenant}{pipeline} {project}/{branch}:{change},{set}.",
        "maingate 'a site'/v1.0:4294967295,2.",
    ),
    ("'a' \"b\" {project}", "'a' \"b\" 'a site'"),
    (r#""it's"{project}'"'{set}"#, r#""it's"'a site''"'2"#),
    (r"\'{set}\\{change}", r"\'2\\4294967295"),
    (r#"'\'{set}"\"\\"{project}"#, r#"'\'2"\"\\"'a site'"#),
    ("{set} it's", "2 it's"),
    (r"$x{set} \${change} '$'{set}$", r"$x2 \$4294967295 '$'2$"),
];

#[test]
fn templates_are_filled(rt: HostRuntime) -> Result<(), Fail> {
    for (template, wanted) in TEMPLATES {
        let text = filled(rt.alloc(), template)?;
        assert_eq!(rt; text.as_slice(), wanted.as_bytes());
    }
    Ok(())
}

/// The line of a template's fault, without its part.
fn refused(alloc: Global, template: &str) -> Result<String, Fail> {
    let Err(fault) = Template::read(alloc, template) else {
        return Err(Fail::from("a fault"));
    };
    let mut words = format!(in alloc; "{} ", fault.number())?;
    fault.write_words(&mut words)?;
    Ok(words)
}

#[test]
fn wrong_braces_are_refused(rt: HostRuntime) -> Result<(), Fail> {
    let unknown = refused(rt.alloc(), "{change} {Set} {")?;
    assert_eq!(rt; unknown.as_str(), "7 UnknownField Set");
    let nested = refused(rt.alloc(), "{{change}}")?;
    assert_eq!(rt; nested.as_str(), "7 UnknownField {change");
    let open = refused(rt.alloc(), "{change} {set")?;
    assert_eq!(rt; open.as_str(), "8 OpenBrace");
    assert_eq!(rt; TemplateFault::NoMemory.number(), 5);
    assert_eq!(rt; Field::named("branch"), Some(Field::Branch));
    Ok(())
}

/// Templates with a field that a shell reads as quoted, or as a parameter's name, and how each is refused.
const QUOTED: &[(&str, &str)] = &[
    (r#"echo "refs/heads/{branch}""#, "11 QuotedField branch"),
    ("echo 'refs/heads/{branch}'", "11 QuotedField branch"),
    (r"echo \{branch}", "11 QuotedField branch"),
    (r#"{tenant} "{pipeline}" {x}"#, "11 QuotedField pipeline"),
    (r#"{tenant} "{x}" '{set}'"#, "7 UnknownField x"),
    (r#"{tenant} "{project} {"#, "11 QuotedField project"),
    (r#"{tenant} "{project"#, "8 OpenBrace"),
    (r"'{tenant}", "11 QuotedField tenant"),
    (r"'\'{change}'{set}", "11 QuotedField set"),
    (r#""\"{change}"#, "11 QuotedField change"),
    (r#""\\"{change}\\\{set}"#, "11 QuotedField set"),
    (r#""'"{change}'"{set}"#, "11 QuotedField set"),
    (r"\\\'{change}'{set}", "11 QuotedField set"),
    ("echo ${branch}", "11 QuotedField branch"),
    ("echo $${change}", "11 QuotedField change"),
    (r"\$$'a'\\${set}", "11 QuotedField set"),
    ("echo $\\\n{branch}", "11 QuotedField branch"),
    ("$\\\n\\\n{set}", "11 QuotedField set"),
];

#[test]
fn quoted_fields_are_refused(rt: HostRuntime) -> Result<(), Fail> {
    values_are_read_outside_quotes();
    for (template, wanted) in QUOTED {
        let words = refused(rt.alloc(), template)?;
        assert_eq!(rt; words.as_str(), *wanted);
    }
    assert_eq!(rt; Field::Pipeline.name(), "pipeline");
    Ok(())
}

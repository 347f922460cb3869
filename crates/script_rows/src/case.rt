//! One case: its script, and how it is run.
use std::alloc::Global;
use std::test::Fail;

/// The statements of a script, and the answers to all of them. A further line belongs to the last statement
/// while that is open, unless each line is a statement.
#[derive(Drop)]
pub struct Script {
    pub statements: Vec<String>,
    pub answers: String,
    pub is_open: bool,
    pub is_by_lines: bool,
}

/// The lines of a case, with the options in them, and its script. So many statements stand before all cases of
/// the test.
#[derive(Drop)]
pub struct Case {
    pub name: String,
    pub text: String,
    pub script: Script,
    pub fronts: usize,
}

/// The first word of a line, and what stands behind it.
pub fn first_word(line: &str) -> (&str, &str) {
    line.split_once(' ').unwrap_or((line, ""))
}

/// The words of a line. Two quotes are an empty word.
pub fn words_of(alloc: Global, line: &str) -> Result<Vec<String>, Fail> {
    let mut words = Vec::new(alloc);
    for word in line.split_whitespace() {
        words.push(String::from_str(alloc, word.trim_matches('\''))?)?;
    }
    Ok(words)
}

// Adds a text in a line of its own, or in the last one where that ends with two backticks.
fn push_text(text: &mut String, more: &str) -> Result<(), Fail> {
    if !text.is_empty() && !text.as_str().ends_with("``") {
        text.push('\n')?;
    }
    text.push_str(more)?;
    Ok(())
}

/// The text of some statements, with a move of the data behind all but the first ones, to the versions in
/// turn, from the one at a place on.
pub fn moving(
    alloc: Global,
    statements: &[String],
    unmoved: usize,
    versions: &[String],
    mut place: usize,
) -> Result<String, Fail> {
    let mut text = String::new(alloc);
    for (number, statement) in statements.iter().enumerate() {
        push_text(&mut text, statement.as_str())?;
        if number >= unmoved {
            if let Some(version) = versions.get(place) {
                write!(text, " MATERIALIZE {version};")?;
            }
            place = place.saturating_add(1);
            if place >= versions.len() {
                place = 0;
            }
        }
    }
    Ok(text)
}

/// The text of some statements.
pub fn joined(alloc: Global, statements: &[String]) -> Result<String, Fail> {
    moving(alloc, statements, 0, &[], 0)
}

impl Script {
    /// A script with no statement.
    pub fn new(alloc: Global) -> Script {
        Script {
            statements: Vec::new(alloc),
            answers: String::new(alloc),
            is_open: false,
            is_by_lines: false,
        }
    }

    /// Adds to the statement that is open, or else begins one.
    pub fn add_text(&mut self, alloc: Global, text: &str) -> Result<(), Fail> {
        let open = if self.is_open && !self.is_by_lines {
            self.statements.pop()
        } else {
            None
        };
        let mut statement = open.unwrap_or(String::new(alloc));
        push_text(&mut statement, text)?;
        self.statements.push(statement)?;
        self.is_open = true;
        Ok(())
    }

    /// Adds a line that answers the last statement.
    pub fn add_answer(&mut self, line: &str) -> Result<(), Fail> {
        writeln!(self.answers, "{line}")?;
        self.is_open = false;
        Ok(())
    }

    /// Adds the statements and the answers of another script.
    pub fn add_all(&mut self, alloc: Global, other: &Script) -> Result<(), Fail> {
        for statement in &other.statements {
            self.is_open = false;
            self.add_text(alloc, statement.as_str())?;
        }
        self.answers.push_str(other.answers.as_str())?;
        self.is_open = other.is_open;
        Ok(())
    }
}

impl Case {
    /// A case with no name, no option and no statement.
    pub fn new(alloc: Global) -> Case {
        Case {
            name: String::new(alloc),
            text: String::new(alloc),
            script: Script::new(alloc),
            fronts: 0,
        }
    }

    /// What the option with this name says.
    pub fn said(&self, name: &str) -> Option<&str> {
        for line in self.text.as_str().lines() {
            if let Some(option) = line.strip_prefix(": ") {
                let (word, value) = first_word(option);
                if word == name {
                    return Some(value);
                }
            }
        }
        None
    }

    /// Whether there is an option with this name.
    pub fn has(&self, name: &str) -> bool {
        self.said(name).is_some()
    }

    /// The number that an option says, or another one where it isn't there.
    pub fn number(&self, name: &str, other: u64) -> Result<u64, Fail> {
        let Some(value) = self.said(name) else {
            return Ok(other);
        };
        match value.parse::<u64>() {
            Ok(number) => Ok(number),
            Err(_) => Err(Fail::new(format_args!("{}: no number: {name} {value}", self.name))),
        }
    }

    /// Whether each line is a statement, and the answers are those of the first run.
    pub fn is_by_lines(&self) -> bool {
        self.has("unnoticed") || self.has("dumped")
    }
}

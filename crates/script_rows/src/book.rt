//! A file of cases, paragraph by paragraph.
use crate::case::{Case, Script, first_word, joined};
use crate::checks::{check, compare};
use crate::marked::unmarked;
use crate::running::{ROOM, Told, no_files, ran_out};
use outside::MemoryFiles;
use std::alloc::Global;
use std::test::Fail;

// The names of all options.
const OPTIONS: &str =
    " words status file vacant left kept gives spaces take put cut room rooms everywhere unnoticed dumped ";

/// What the paragraphs so far say: the named texts, the test, what stands before all its cases, how many of
/// these there were, how many cases in all, and what is reported.
#[derive(Drop)]
pub struct Book {
    texts: Vec<(String, Script)>,
    test: String,
    front: String,
    place: u64,
    pub count: u64,
    pub report: String,
}

// The text with an exchange, which is written as `old => new`.
fn exchanged(alloc: Global, text: &str, exchange: &str) -> Result<String, Fail> {
    let Some((old, new)) = exchange.split_once(" =>") else {
        return Ok(String::from_str(alloc, text)?);
    };
    let changed = text.replace(alloc, old, new.trim_start())?;
    if changed.as_str() == text {
        return Err(Fail::new(format_args!("nothing to exchange: {exchange}")));
    }
    Ok(changed)
}

// Whether a line says nothing of the script. An option has to be one that there is.
fn is_aside(alloc: Global, line: &str) -> Result<bool, Fail> {
    if let Some(option) = line.strip_prefix(": ") {
        let name = format!(in alloc; " {} ", first_word(option).0)?;
        if !OPTIONS.contains(name.as_str()) {
            return Err(Fail::new(format_args!("no option: {option}")));
        }
        return Ok(true);
    }
    Ok(line.is_empty() || line.starts_with("//"))
}

impl Book {
    /// A book of which nothing was read.
    pub fn new(alloc: Global) -> Book {
        Book {
            texts: Vec::new(alloc),
            test: String::new(alloc),
            front: String::new(alloc),
            place: 0,
            count: 0,
            report: String::new(alloc),
        }
    }

    fn text(&self, name: &str) -> Option<&Script> {
        for (known, script) in &self.texts {
            if known.as_str() == name {
                return Some(script);
            }
        }
        None
    }

    // Adds what a paragraph says of the script, and tells whether it says something.
    fn add(&self, alloc: Global, script: &mut Script, paragraph: &str) -> Result<bool, Fail> {
        let mut says_something = false;
        for line in paragraph.lines() {
            if is_aside(alloc, line)? {
                continue;
            }
            says_something = true;
            if let Some(name) = line.strip_prefix("+ ") {
                let Some(text) = self.text(name) else {
                    return Err(Fail::new(format_args!("no text {name}")));
                };
                script.add_all(alloc, text)?;
            } else if let Some(answer) = line.strip_prefix("--") {
                script.add_answer(answer.strip_prefix(' ').unwrap_or(answer))?;
            } else {
                script.add_text(alloc, line)?;
            }
        }
        Ok(says_something)
    }

    // The bytes of a named text, maybe with an exchange.
    fn bytes(&self, alloc: Global, value: &str) -> Result<Vec<u8>, Fail> {
        let (name, exchange) = first_word(value);
        let Some(text) = self.text(name) else {
            return Err(Fail::new(format_args!("no text {name}")));
        };
        let text = joined(alloc, text.statements.as_slice())?;
        unmarked(alloc, exchanged(alloc, text.as_str(), exchange)?.as_str())
    }

    // Adds the files that a case begins with.
    fn add_files(&self, alloc: Global, case: &Case, files: &mut MemoryFiles) -> Result<(), Fail> {
        for line in case.text.as_str().lines() {
            if let Some(name) = line.strip_prefix(": vacant ") {
                files.add_room(alloc, name, ROOM).map_err(ran_out)?;
            } else if let Some(option) = line.strip_prefix(": file ") {
                let (name, value) = first_word(option);
                let bytes = self.bytes(alloc, value)?;
                files
                    .add(alloc, name, bytes.as_slice(), ROOM)
                    .map_err(ran_out)?;
            }
        }
        Ok(())
    }

    // Reports a file that isn't left as the case says.
    fn check_files(&mut self, alloc: Global, case: &Case, files: &MemoryFiles) -> Result<(), Fail> {
        for line in case.text.as_str().lines() {
            if let Some(option) = line.strip_prefix(": left ") {
                let (name, value) = first_word(option);
                let wanted = Told::new(alloc, 0, self.bytes(alloc, value)?.as_slice())?;
                let told = Told::new(alloc, 0, files.bytes(name).unwrap_or(b"(no file)"))?;
                let name = format!(in alloc; "{}, the file {name}", case.name)?;
                compare(&mut self.report, name.as_str(), &told, &wanted)?;
            }
        }
        Ok(())
    }

    // Reads a paragraph behind the front of the test, and runs its case where it has one.
    fn read_case(
        &mut self,
        alloc: Global,
        paragraph: &str,
        files: &mut MemoryFiles,
    ) -> Result<(), Fail> {
        let mut case = Case::new(alloc);
        case.text = format!(in alloc; "{paragraph}\n{}", self.front)?;
        self.add(alloc, &mut case.script, self.front.as_str())?;
        case.fronts = case.script.statements.len();
        case.script.is_by_lines = case.is_by_lines();
        if !self.add(alloc, &mut case.script, paragraph)? {
            if paragraph.starts_with(": ") || paragraph.contains("\n: ") {
                return Err(Fail::new(format_args!("{}: options alone", self.test)));
            }
            return Ok(());
        }
        self.place = self.place.saturating_add(1);
        self.count = self.count.saturating_add(1);
        case.name = format!(in alloc; "{} {}", self.test, self.place)?;
        if !case.has("kept") {
            *files = no_files(alloc);
        }
        self.add_files(alloc, &case, files)?;
        check(alloc, &mut self.report, &case, files)?;
        self.check_files(alloc, &case, files)
    }

    /// Reads a paragraph. The files are those that the last case left.
    pub fn read(
        &mut self,
        alloc: Global,
        paragraph: &str,
        files: &mut MemoryFiles,
    ) -> Result<(), Fail> {
        let (head, lines) = paragraph.split_once('\n').unwrap_or((paragraph, ""));
        if let Some(name) = head.strip_prefix("= ") {
            let mut script = Script::new(alloc);
            self.add(alloc, &mut script, lines)?;
            self.texts.push((String::from_str(alloc, name)?, script))?;
            return Ok(());
        }
        if let Some(name) = head.strip_prefix("== ") {
            self.test = String::from_str(alloc, name)?;
            self.front = String::from_str(alloc, lines)?;
            self.place = 0;
            return Ok(());
        }
        self.read_case(alloc, paragraph, files)
    }
}

//! Files and a sink in memory, and runs over them.
use lint_base::{Items, MemFile, MemShelf, MemSink, NoMemory, Str};
use lint_run::run;
use std::alloc::Global;

/// A file of the page.
#[derive(Drop)]
struct File {
    path: String,
    text: String,
}

/// What the runs of a page are made over: the files, the most bytes that a read gives and a write
/// takes, and the numbers of the calls of the shelf and of the sink that fail.
#[derive(Drop)]
pub(crate) struct Setting {
    files: Vec<File>,
    read_most: u32,
    write_most: u32,
    shelf_fails: Vec<u32>,
    sink_fails: Vec<u32>,
}

/// The status of a run, and what it wrote.
#[derive(Drop)]
pub(crate) struct Written {
    pub(crate) status: u8,
    pub(crate) text: String,
}

/// The numbers of a text. A word that is none is passed over.
fn numbers(alloc: Global, text: &str) -> Result<Vec<u32>, NoMemory> {
    let mut numbers = Vec::new(alloc);
    for word in text.split(' ') {
        if let Ok(number) = word.parse::<u32>() {
            numbers.push(number)?;
        }
    }
    Ok(numbers)
}

/// The words of a text. Two quotes are a word without a character.
fn words_of(alloc: Global, text: &str) -> Result<Vec<String>, NoMemory> {
    let mut words = Vec::new(alloc);
    for word in text.split(' ') {
        if word == "''" {
            words.push(String::new(alloc))?;
        } else if !word.is_empty() {
            words.push(String::from_str(alloc, word)?)?;
        }
    }
    Ok(words)
}

fn list<T: Copy>(alloc: Global, items: &[T]) -> Result<Items<T>, NoMemory> {
    Ok(Items::from_vec(Vec::from_slice(alloc, items)?))
}

fn memory_file(alloc: Global, file: &File) -> Result<MemFile, NoMemory> {
    Ok(MemFile {
        path: Str::from_str(alloc, file.path.as_str())?,
        bytes: list(alloc, file.text.as_bytes())?,
    })
}

fn text_of(alloc: Global, bytes: &[u8]) -> Result<String, NoMemory> {
    let text = std::str::from_utf8(bytes).unwrap_or("bytes that are no text");
    Ok(String::from_str(alloc, text)?)
}

impl Setting {
    /// No files, calls that move up to 4,096 bytes, and none that fails.
    pub(crate) fn new(alloc: Global) -> Setting {
        Setting {
            files: Vec::new(alloc),
            read_most: 4096,
            write_most: 4096,
            shelf_fails: Vec::new(alloc),
            sink_fails: Vec::new(alloc),
        }
    }

    /// Puts a file on the shelf, in place of one of the same path.
    pub(crate) fn put(&mut self, alloc: Global, path: &str, text: &str) -> Result<(), NoMemory> {
        let text = String::from_str(alloc, text)?;
        for file in self.files.iter_mut() {
            if file.path.as_str() == path {
                file.text = text;
                return Ok(());
            }
        }
        let path = String::from_str(alloc, path)?;
        self.files.push(File { path, text })?;
        Ok(())
    }

    /// Puts a file on the shelf, whose path is the first word.
    pub(crate) fn put_file(&mut self, alloc: Global, text: &str) -> Result<(), NoMemory> {
        let (path, text) = text.split_once(' ').unwrap_or((text, ""));
        self.put(alloc, path, text)
    }

    /// As `put_file`, with `<` and `>` for `{` and `}`.
    pub(crate) fn put_object(&mut self, alloc: Global, text: &str) -> Result<(), NoMemory> {
        let opened = text.replace(alloc, "<", "{")?;
        let closed = opened.as_str().replace(alloc, ">", "}")?;
        self.put_file(alloc, closed.as_str())
    }

    /// From here a read gives at most so many bytes, and a write takes at most so many.
    pub(crate) fn set_portions(&mut self, alloc: Global, text: &str) -> Result<(), NoMemory> {
        if let [read_most, write_most] = numbers(alloc, text)?.as_slice() {
            self.read_most = *read_most;
            self.write_most = *write_most;
        }
        Ok(())
    }

    /// From here these calls of the shelf fail.
    pub(crate) fn fail_on_shelf(&mut self, alloc: Global, text: &str) -> Result<(), NoMemory> {
        self.shelf_fails = numbers(alloc, text)?;
        Ok(())
    }

    /// From here these calls of the sink fail.
    pub(crate) fn fail_on_sink(&mut self, alloc: Global, text: &str) -> Result<(), NoMemory> {
        self.sink_fails = numbers(alloc, text)?;
        Ok(())
    }

    fn shelf(&self, alloc: Global) -> Result<MemShelf, NoMemory> {
        let mut files = Items::new(alloc);
        for file in self.files.as_slice() {
            files.push(memory_file(alloc, file)?)?;
        }
        let fails = list(alloc, self.shelf_fails.as_slice())?;
        Ok(MemShelf::new(files, self.read_most.max(1), fails))
    }

    fn sink(&self, alloc: Global) -> Result<MemSink, NoMemory> {
        let fails = list(alloc, self.sink_fails.as_slice())?;
        MemSink::new(alloc, self.write_most.max(1), fails)
    }

    /// A run on these words.
    pub(crate) fn run(&self, alloc: Global, text: &str) -> Result<Written, NoMemory> {
        let mut shelf = self.shelf(alloc)?;
        let mut sink = self.sink(alloc)?;
        let words = words_of(alloc, text)?;
        let outcome = run(alloc, words.as_slice(), &mut shelf, &mut sink);
        Ok(Written {
            status: outcome.status,
            text: text_of(alloc, sink.written())?,
        })
    }
}

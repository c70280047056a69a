//! What a play begins with.
use crate::drawers::{Drawer, Stamping};
use crate::ending::{Ending, files_of};
use crate::fault::CaseFault;
use crate::places::put;
use crate::steps::CaseStep;
use crate::words::{answer, failing, lane_fault, number, readings, small};
use base_clock::Reading;
use base_disk::{DiskTrouble, Failing, Held, MemoryDisk, Stored};
use base_log::{Form, SinkAnswer};
use std::alloc::{AllocError, Global};
use std::mem;
use vault_lanes::NumberedLaneFault;

/// The inventory's file.
pub const FILE: &str = "web.toml";

/// Where the ends are kept.
pub const ENDS: &str = "run/ends";

/// Where the id of the boot stands, and that of the boot in which all plays are.
pub const BOOT: &str = "/proc/sys/kernel/random/boot_id";

const BOOT_ID: &[u8] = b"boot-1\n";

/// What a play begins with.
#[derive(Drop)]
pub struct Setting {
    alloc: Global,
    pub form: Form,
    /// The time-out of a request, in seconds.
    pub timeout: u32,
    /// How many requests may be out at once.
    pub width: u32,
    /// By how many seconds a day is shorter.
    pub part: u32,
    /// Where the agent stands behind another, the number of its name.
    pub behind: Option<u64>,
    /// The inventory that the broker knows at first.
    pub broker: Vec<u8>,
    /// The one that it knows to who looks ahead, and what goes wrong with one of these requests.
    pub ahead: Vec<u8>,
    pub ahead_fault: Option<NumberedLaneFault>,
    /// Whether credentials are looked up before they are taken, and what goes wrong with one of these requests.
    pub looks_up: bool,
    pub lookup_fault: Option<NumberedLaneFault>,
    /// What the clocks read, one reading after the other; the first is that of the start.
    pub readings: Vec<Option<Reading>>,
    /// What the log's reader answers to its calls, one after the other.
    pub answers: Vec<SinkAnswer>,
    /// The number of the call of the first guest's connection that fails.
    pub guest_fails: u64,
    /// The text of the inventory that is served.
    pub file: Vec<u8>,
    /// From when on the state folder can be used, in milliseconds of the clock that never steps, where it cannot be at the start.
    pub later: Option<u64>,
    /// Where changes are kept, and where ends.
    pub state: DiskBefore,
    pub ends: DiskBefore,
    /// The files of credentials.
    pub drawer: Drawer,
}

/// A disk before a start.
#[derive(Drop)]
pub struct DiskBefore {
    /// Which of its calls fail; `None` where there is no such disk.
    pub failing: Option<Failing>,
    pub files: Vec<Stored>,
    /// What stands on it of these; `None` where that is all of them.
    pub kept: Option<Vec<Stored>>,
    /// How the agent that has it ends.
    pub ending: Ending,
}

impl DiskBefore {
    fn new(alloc: Global) -> DiskBefore {
        DiskBefore {
            failing: None,
            files: Vec::new(alloc),
            kept: None,
            ending: Ending::AtRest,
        }
    }

    // Its one file has the text of this step.
    fn hold(&mut self, alloc: Global, path: &str, step: &CaseStep<'_>) -> Result<(), AllocError> {
        let bytes = step.bytes(alloc)?;
        self.files = Vec::new(alloc);
        self.push(alloc, path, Held { mode: 0o600, bytes })
    }

    fn push(&mut self, alloc: Global, path: &str, file: Held) -> Result<(), AllocError> {
        let path = Vec::from_slice(alloc, path.as_bytes())?;
        self.files.push(Stored { path, file })?;
        Ok(())
    }

    /// It has the files that this disk leaves at these paths behind such an end, and no call of it fails.
    pub fn keep(
        &mut self,
        alloc: Global,
        disk: &MemoryDisk,
        paths: &[&str],
    ) -> Result<(), AllocError> {
        let ending = mem::replace(&mut self.ending, Ending::AtRest);
        self.failing = Some(Failing::Never);
        self.files = files_of(alloc, disk, paths, ending.left())?;
        let kept = match ending.kept() {
            None => None,
            Some(seed) => Some(files_of(alloc, disk, paths, Some(seed))?),
        };
        put(&mut self.kept, kept);
        Ok(())
    }

    /// The disk of an agent that is started, with these files.
    pub fn disk(&mut self, alloc: Global, failing: Failing) -> MemoryDisk {
        let files = mem::replace(&mut self.files, Vec::new(alloc));
        match mem::replace(&mut self.kept, None) {
            None => MemoryDisk::new(alloc, files, failing, DiskTrouble::Full),
            Some(kept) => MemoryDisk::after_kill(alloc, files, kept, failing, DiskTrouble::Full),
        }
    }

    /// The bytes of its file at a path.
    pub fn bytes_at(&self, alloc: Global, path: &str) -> Result<Option<Vec<u8>>, AllocError> {
        for stored in &self.files {
            if stored.path.as_slice() == path.as_bytes() {
                return Ok(Some(Vec::from_slice(alloc, &stored.file.bytes)?));
            }
        }
        Ok(None)
    }
}

impl Setting {
    /// Where nothing is said.
    pub fn new(alloc: Global) -> Setting {
        Setting {
            alloc,
            form: Form::Text,
            timeout: 5,
            width: 8,
            part: 0,
            behind: None,
            broker: Vec::new(alloc),
            ahead: Vec::new(alloc),
            ahead_fault: None,
            looks_up: false,
            lookup_fault: None,
            readings: Vec::new(alloc),
            answers: Vec::new(alloc),
            guest_fails: u64::MAX,
            file: Vec::new(alloc),
            later: None,
            state: DiskBefore::new(alloc),
            ends: DiskBefore::new(alloc),
            drawer: Drawer::new(alloc),
        }
    }

    /// Takes what the first steps say, up to the first one at which something happens, and gives the number of those.
    pub fn take_first(&mut self, steps: &[CaseStep<'_>]) -> Result<usize, CaseFault> {
        let mut first = steps.len();
        for (number, step) in steps.iter().enumerate() {
            if !self.take(step)? {
                first = number;
                break;
            }
        }
        if self.broker.is_empty() {
            self.broker = Vec::from_slice(self.alloc, &self.file)?;
        }
        if self.ahead.is_empty() {
            self.ahead = Vec::from_slice(self.alloc, &self.broker)?;
        }
        Ok(first)
    }

    // Takes what a step says, where that is what a play begins with.
    fn take(&mut self, step: &CaseStep<'_>) -> Result<bool, CaseFault> {
        let alloc = self.alloc;
        match step.words.as_slice() {
            ["inventory"] => {
                self.file = step.bytes(alloc)?;
                self.state.hold(alloc, FILE, step)?;
            }
            ["inventory", "later"] => self.state.hold(alloc, FILE, step)?,
            ["broker"] => self.broker = step.bytes(alloc)?,
            ["behind", word] => {
                self.behind = Some(number(word, step.unread())?);
                self.ahead = step.bytes(alloc)?;
            }
            ["state", "later", word] => {
                self.later = Some(number(word, step.unread())?);
                self.state.failing = Some(Failing::Never);
            }
            ["state", words @ ..] => {
                self.state.failing = Some(failing(words, step.unread())?);
            }
            ["ends", words @ ..] => {
                self.ends.failing = Some(failing(words, step.unread())?);
                if !step.written.is_empty() {
                    self.ends.hold(alloc, ENDS, step)?;
                }
                self.ends.push(alloc, BOOT, boot(alloc)?)?;
            }
            ["file", path, words @ ..] => {
                put_file(alloc, step, path, words, &mut self.drawer)?;
            }
            words => return self.take_words(words, step.unread()),
        }
        Ok(true)
    }

    // The same of one that has no text.
    fn take_words(&mut self, words: &[&str], unread: CaseFault) -> Result<bool, CaseFault> {
        match words {
            ["form", "json"] => self.form = Form::Json,
            ["clock", words @ ..] => self.take_readings(words, unread)?,
            ["timeout", word] => self.timeout = small(word, unread)?,
            ["width", word] => self.width = small(word, unread)?,
            ["part", word] => self.part = small(word, unread)?,
            ["reader", call, words @ ..] => {
                let call = number(call, unread)?;
                self.answer_at(call, answer(words, unread)?)?;
            }
            ["lookups"] => self.looks_up = true,
            ["lookups", request, fault @ ..] => {
                self.looks_up = true;
                self.lookup_fault = Some(numbered_fault(request, fault, unread)?);
            }
            ["ahead", request, fault @ ..] => {
                self.ahead_fault = Some(numbered_fault(request, fault, unread)?);
            }
            _ => return Ok(false),
        }
        Ok(true)
    }

    fn take_readings(&mut self, words: &[&str], unread: CaseFault) -> Result<(), CaseFault> {
        for word in words {
            let readings = readings(word, unread)?;
            for number in 0..readings.count {
                self.readings.push(readings.get(number))?;
            }
        }
        Ok(())
    }

    /// The log's reader takes all up to the call with that number, to which it answers this.
    pub fn answer_at(&mut self, call: u64, answer: SinkAnswer) -> Result<(), AllocError> {
        for _ in self.answers.len() as u64..call {
            self.answers.push(SinkAnswer::Takes(usize::MAX))?;
        }
        self.answers.push(answer)?;
        Ok(())
    }

    /// The reading with that number fails, and the next one reads what it would have read.
    pub fn fail_reading(&mut self, failing: u64) -> Result<(), AllocError> {
        let mut readings = Vec::new(self.alloc);
        for (number, reading) in self.readings.iter().enumerate() {
            if number as u64 == failing {
                readings.push(None)?;
            }
            readings.push(*reading)?;
        }
        self.readings = readings;
        Ok(())
    }
}

/// What goes wrong with the request of that number.
fn numbered_fault(
    request: &str,
    fault: &[&str],
    unread: CaseFault,
) -> Result<NumberedLaneFault, CaseFault> {
    Ok(NumberedLaneFault {
        number: number(request, unread)?,
        fault: lane_fault(fault, unread)?,
    })
}

/// The file with the id of the boot.
fn boot(alloc: Global) -> Result<Held, AllocError> {
    Ok(Held {
        mode: 0o444,
        bytes: Vec::from_slice(alloc, BOOT_ID)?,
    })
}

/// Puts the file of a step into a drawer, as its words have it.
pub fn put_file(
    alloc: Global,
    step: &CaseStep<'_>,
    path: &str,
    words: &[&str],
    drawer: &mut Drawer,
) -> Result<(), CaseFault> {
    let stamping = match words {
        [] => Stamping::Written,
        ["moved"] => Stamping::Moved,
        ["linked"] => Stamping::Linked,
        ["stays"] => Stamping::Stays,
        ["pipe"] => Stamping::Pipe,
        ["gone"] => {
            drawer.remove(path);
            return Ok(());
        }
        _ => return Err(step.unread()),
    };
    drawer.put(alloc, path, step.bytes(alloc)?, stamping)?;
    Ok(())
}

// The directory of a case.
use crate::words::{number, word};
use crate::{calls, letters, outside};
use bk_system::FileDevice;
use cases::Subject;
use std::alloc::{AllocError, Global};
use std::fs::File;
use std::io;
use std::rt::{Clock, Files};

// The directory of a case, which it has for itself, and the device over it.
#[derive(Drop)]
pub struct Folder<'a, R: Files<File = File> + Print> {
    rt: &'a R,
    number: u64,
    path: String,
    device: FileDevice<'a, R>,
}

impl<'a, R: AllocGlobal + Files<File = File> + Print> Folder<'a, R> {
    // That of the first case is the next one.
    pub fn new(rt: &'a R) -> Result<Self, AllocError> {
        Ok(Folder {
            rt,
            number: 0,
            path: String::new(rt.alloc()),
            device: FileDevice::new(rt, rt.alloc(), "none")?,
        })
    }

    fn other_device(&self) -> Result<FileDevice<'a, R>, AllocError> {
        FileDevice::new(self.rt, self.rt.alloc(), &self.path)
    }

    fn path_of(&self, name: &str) -> Result<String, AllocError> {
        let path = self.path.as_str();
        format!(in self.rt.alloc(); "{path}/{name}")
    }

    // `folder NAME` and `link NAME TO` make what is no regular file, and `lose` removes the directory, which is empty.
    fn prepare(&self, words: &[&str]) -> io::Result<()> {
        let path = self.path_of(word(words, 1))?;
        match word(words, 0) {
            "folder" => self.rt.create_dir(&path),
            "link" => self.rt.symlink(word(words, 2), &path),
            _ => self.rt.remove_dir(&self.path),
        }
    }

    // `second CALL..` is a call on a second device, while the first one is there.
    fn second(&self, words: &[&str]) -> Result<String, AllocError> {
        let mut device = self.other_device()?;
        let call = words.get(1..).unwrap_or(&[]);
        calls::call(self.rt.alloc(), &mut device, call)
    }

    // `fill NAME LENGTH`, `pieces NAME SIZE` and `many COUNT`; any other is a call.
    fn call(&mut self, words: &[&str]) -> Result<String, AllocError> {
        let alloc = self.rt.alloc();
        let device = &mut self.device;
        let name = word(words, 1);
        let count = number(word(words, 2));
        match word(words, 0) {
            "fill" => letters::fill(alloc, device, name, count),
            "pieces" => letters::read_in_pieces(alloc, device, name, count),
            "many" => letters::many(alloc, device, number(name)),
            _ => calls::call(alloc, device, words),
        }
    }

    // Goes on in a new directory.
    fn move_on(&mut self) -> Result<(), AllocError> {
        self.number = self.number.saturating_add(1);
        let number = self.number;
        self.path = format!(in self.rt.alloc(); "case-{number}")?;
        let _ = self.rt.create_dir(&self.path);
        self.close()
    }

    // Goes on with a new device.
    fn close(&mut self) -> Result<(), AllocError> {
        self.device = self.other_device()?;
        Ok(())
    }
}

impl<'a, R: AllocGlobal + Clock + Files<File = File> + Input + Print> Folder<'a, R> {
    fn said(&mut self, words: &[&str]) -> Result<String, AllocError> {
        match word(words, 0) {
            "folder" | "link" | "lose" => {
                let done = self.prepare(words);
                let said = if done.is_ok() { "done" } else { "not done" };
                String::from_str(self.rt.alloc(), said)
            }
            "second" => self.second(words),
            "stdin" => outside::stdin(self.rt),
            "clock" => outside::clock(self.rt),
            _ => self.call(words),
        }
    }
}

impl<'a, R: AllocGlobal + Clock + Files<File = File> + Input + Print> Subject for Folder<'a, R> {
    fn begin(&mut self) -> Result<(), AllocError> {
        self.move_on()
    }

    fn answer(&mut self, command: &str, out: &mut String) -> Result<(), AllocError> {
        let words: Vec<&str> = command.split_whitespace().collect(self.rt.alloc())?;
        if word(&words, 0) == "close" {
            return self.close();
        }
        let said = self.said(&words)?;
        writeln!(out, "{said}")
    }
}

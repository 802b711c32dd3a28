use crate::state::{State, refused};
use std::alloc::AllocError;
use std::io;
use std::io::ErrorKind;

/// The descriptors of the process.
impl State {
    /// Opens the inode at the lowest descriptor that is free and not below the given one.
    pub(crate) fn opened(&mut self, inode: usize, least: usize) -> Result<usize, AllocError> {
        for number in least..self.numbers.len() {
            if self.numbers[number].is_none() {
                self.numbers[number] = Some(inode);
                return Ok(number);
            }
        }
        let number = self.numbers.len();
        self.numbers.push(Some(inode))?;
        Ok(number)
    }

    /// Nothing has the descriptor any more.
    pub fn close(&mut self, number: usize) {
        if let Some(place) = self.numbers.get_mut(number) {
            *place = None;
        }
    }

    /// The inode that has the descriptor.
    pub(crate) fn behind(&self, number: usize) -> io::Result<usize> {
        match self.numbers.get(number) {
            Some(Some(inode)) => Ok(*inode),
            _ => refused(ErrorKind::InvalidInput),
        }
    }
}

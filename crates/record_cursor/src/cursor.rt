ghost use Rattle.std.specs.Prelude.{◌≡◌, ◌≢◌, ◌+◌, ◌≤◌, ◌-◌, ⊤, ℕ, List, ◌∷◌, length, drop, None, Some, IfOk, IsOk, IfErr};
ghost use Rattle.std.specs.FinMap as map;
ghost use Rattle.std.specs.Borrow.{sem, follows_so};
ghost use mathlib.Core.Option.{none};
ghost use Rattle.xa_outside.specs.Causes.{Rose};
ghost use Rattle.xa_outside.specs.Folder.{Files, bytes_or_none};
ghost use Rattle.xa_outside.specs.Numbers.{PullsAtMost, after_pull};
ghost use Rattle.record_cursor.specs.contracts.cursor.Cursor.{the_row};
ghost use Rattle.record_cursor.specs.Faults.{IfDamage, IfFolder};
ghost use Rattle.record_cursor.specs.Items.{PlainItem, finish};
ghost use Rattle.record_cursor.specs.Moves.{TellsFront, Comes, Moves};
ghost use Rattle.record_cursor.specs.Next.{next_of, size_of, read_for};
ghost use Rattle.record_cursor.specs.Places.{among_nodes, finished};
ghost use Rattle.record_cursor.specs.Spelled.{IsSpelled};
ghost use Rattle.record_cursor.specs.View.{header_view, IsHeader, shown_item};

use crate::buffer::Buffer;
use crate::fault::CursorFault;
use crate::header::Header;
use crate::item::{Item, lend};
use crate::place::Place;
use crate::step::read_step;
use std::alloc::{AllocError, Global};
use std::marker::Model;
use xa_outside::Folder;

/// A place in an archive file, and the bytes of the record that was read last.
#[derive(Drop)]
pub struct Cursor {
    name: String,
    length: u64,
    place: Place,
    at: u64,
    buffer: Buffer,
}

impl Model for Cursor {
    ghost use Rattle.std.specs.Prelude.{◌≤◌, string_bytes};
    ghost use Rattle.record_cursor.specs.View.{PlainCursor, place_view};

    ghost Value = { PlainCursor };

    ghost view = { λ c. record {
      name = string_bytes c.name;
      length = c.length;
      standing = place_view c.place;
      at = c.at;
    } };

    ghost invariant = { λ c. c.at ≤ c.length };
}

impl Cursor {
    /// A cursor at the first record of the file of this name.
    ///
    /// It copies the name and reads nothing.
    pub fn start(alloc: Global, name: &str, header: &Header) -> Result<Cursor, AllocError>
        requires { IsHeader (header_view header.now) }
        ensures { IfOk result (λ c. c ≡ record {
          name = name.now;
          length = (header_view header.now).length;
          standing = among_nodes 0;
          at = (header_view header.now).first;
        }) }
    {
        Ok(Cursor {
            name: String::from_str(alloc, name)?,
            length: header.length,
            place: Place::Nodes { depth: 0 },
            at: header.first,
            buffer: Buffer::new(alloc),
        })
    }

    /// Puts the cursor before a record that opens a node, below so many inner nodes that stand open,
    /// in the part of the file that ends here.
    ///
    /// It reads nothing.
    pub fn seek(&mut self, depth: u32, at: u64, end: u64)
        requires { at ≤ end }
        ensures { self.new ≡ record {
          name = self.old.name;
          length = end;
          standing = among_nodes depth;
          at = at;
        } }
    {
        self.length = end;
        self.place = Place::Nodes { depth };
        self.at = at;
    }

    /// The offset of what comes next.
    pub fn at(&self) -> u64
        ensures { result ≡ self.now.at }
    {
        self.at
    }

    /// The record that stands at the cursor, which moves behind it; behind the last record, that
    /// the file ends, and so again in each call after that.
    ///
    /// A record is read once: nine bytes of its kind and length, and then its body into the
    /// cursor's buffer, out of which its parts are lent. The body of an END is passed over unread,
    /// whatever it is. Memory is taken only for a body that is longer than what the buffer holds and
    /// ends within the file.
    pub fn next<F: Folder>(&mut self, folder: &mut F) -> Result<Item<'_>, CursorFault>
        // Behind the item that is given; after a fault where it stood.
        ensures* after { sem 𝓛 (follows_so the_row the_row self.entry.ghost_name none (λ _ _. ⊤)
            (λ new. Moves (F.files folder.old) self.old result new)) }
        ensures files { F.files folder.new ≡ F.files folder.old }
        ensures draft { F.draft folder.new ≡ F.draft folder.old }
        ensures numbers { IfOk result (λ item. F.numbers folder.new
            ≡ after_pull (F.numbers folder.old) (read_for self.old.standing (shown_item item))) }
        ensures pulls { PullsAtMost (self.old.length - self.old.at)
            (F.numbers folder.old) (F.numbers folder.new) }
        ensures later { F.faults folder.old ≤ F.faults folder.new }
        ensures cause { IfErr result (λ e.
            IfFolder e (Rose (F.faults folder.old) (F.faults folder.new))) }

        // Where an item comes, no more is pulled than is read for it, whatever is answered, and the
        // file is not damaged.
        ensures reads { (i : PlainItem) (is : List PlainItem)
            → Comes (F.files folder.old) self.old (i ∷ is) → PullsAtMost
            (read_for self.old.standing i) (F.numbers folder.old) (F.numbers folder.new) }
        ensures undamaged { (i : PlainItem) (is : List PlainItem)
            → Comes (F.files folder.old) self.old (i ∷ is) → IfErr result (λ e. IfDamage e ⊥) }

        // Behind the end it cannot fail.
        ensures again { self.old.standing ≡ finished → IsOk result }

        // Where the file is told, it is damaged only where nothing that may come stands there.
        ensures damage { (bytes : List ℕ)
            → TellsFront (F.files folder.old) self.old.name self.old.length bytes
            → IfErr result
            (λ e. IfDamage e (next_of self.old.standing (drop self.old.at bytes) ≡ None)) }

        // That the file ends is told only of one that has so many bytes.
        ensures whole { (files : Files) → F.files folder.old ≡ Some files
            → self.old.standing ≢ finished → IfOk result (λ item. shown_item item ≡ finish
            → self.old.length ≤ length (bytes_or_none (map.get files self.old.name))) }

        // Where the file is told, the item was given for what its bytes spell.
        ensures spelled { (bytes : List ℕ)
            → TellsFront (F.files folder.old) self.old.name self.old.length bytes
            → IfOk result (λ item. IsSpelled self.old.standing (shown_item item)
            (drop self.old.at bytes)
            (drop (self.old.at + size_of self.old.standing (shown_item item)) bytes)) }
    {
        let name = self.name.as_str();
        match read_step(
            folder,
            name,
            self.length,
            self.at,
            self.place,
            &mut self.buffer,
        ) {
            Ok(step) => match lend(step.read, self.buffer.as_slice()) {
                Some(item) => {
                    self.place = step.place;
                    self.at = step.at;
                    Ok(item)
                }
                None => Err(CursorFault::Damage),
            },
            Err(fault) => Err(fault),
        }
    }
}

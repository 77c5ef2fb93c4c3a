//! The frames of a document: open arrays and objects.

use crate::grammar::{Item, read_number};
use crate::node::{Document, Node};
use crate::place::Place;
use crate::texts::unescape;
use combine::error::UnexpectedParse;
use combine::nested::{Frame, Next};
use combine::stream::Kind;
use std::alloc::{AllocError, Global};

/// The next state of a frame.
type Then = Result<Next<Open, Document>, AllocError>;

/// An open array or object, or the whole. The innermost has the nodes of the document so far.
#[derive(Drop)]
pub struct Open {
    alloc: Global,
    /// Where the next item comes.
    pub place: Place,
    nodes: Document,
}

impl Open {
    /// Returns the whole, before its first item.
    pub fn new(alloc: Global) -> Open {
        Open {
            alloc,
            place: Place::Whole,
            nodes: Vec::new(alloc),
        }
    }

    /// Continues at this place, if there is one.
    fn go_on(self, place: Option<Place>) -> Then {
        match place {
            Some(Place::End) => Ok(Next::Close(self.nodes)),
            Some(place) => Ok(Next::Stay(Open { place, ..self })),
            None => Ok(Next::Refuse(self.place.expected())),
        }
    }

    /// Takes a comma, a colon or a bracket.
    fn take_sign(mut self, sign: u8) -> Then {
        let takes_value = !self.place.takes_name() && self.place.after().is_some();
        let (node, place) = match (sign, self.place) {
            (b'[', _) if takes_value => (Node::ArrayBegins, Some(Place::Array)),
            (b'{', _) if takes_value => (Node::ObjectBegins, Some(Place::Object)),
            (b']', Place::Array | Place::ElementEnd) => (Node::ArrayEnds, None),
            (b'}', Place::Object | Place::ValueEnd) => (Node::ObjectEnds, None),
            (_, place) => return self.go_on(place.after_sign(sign)),
        };
        self.nodes.push(node)?;
        let Some(place) = place else {
            return Ok(Next::Close(self.nodes));
        };
        let around = Open {
            place: self.place,
            ..Open::new(self.alloc)
        };
        Ok(Next::Open(around, Open { place, ..self }))
    }
}

impl Frame for Open {
    type Item = Item;

    type Value = Document;

    #[inline(always)]
    fn take(mut self, (bytes, sign): Item) -> Then {
        let takes_name = self.place.takes_name();
        let node = match bytes.as_slice() {
            [] => return self.take_sign(sign.unwrap_or(0)),
            [b'"', text @ .., _] => match unescape(self.alloc, text)? {
                Ok(text) if takes_name => Node::Name(text),
                Ok(text) => Node::Text(text),
                Err(why) => return Ok(Next::Refuse(why)),
            },
            _ if takes_name => return self.go_on(None),
            b"null" => Node::Null,
            b"true" => Node::Bool(true),
            b"false" => Node::Bool(false),
            number => match (read_number(number), sign) {
                (Ok(()), _) => Node::Number(bytes),
                (Err(UnexpectedParse(Kind::End)), None) => return self.go_on(Some(Place::Digits)),
                _ => return self.go_on(None),
            },
        };
        self.nodes.push(node)?;
        match (self.place.after(), sign) {
            (Some(place), Some(sign)) => self.go_on(place.after_sign(sign)),
            (place, _) => self.go_on(place),
        }
    }

    #[inline(always)]
    fn join(self, nodes: Document) -> Then {
        let place = self.place.after();
        Open { nodes, ..self }.go_on(place)
    }
}

//! A tree whose nodes lie in one `Vec`, each with the index of the list around it: however deep it is, dropping and comparing it are loops.

use combine::nested::{Frame, Next, always, nested};
use combine::{Parser, UnexpectedParse, satisfy};
use std::alloc::{AllocError, Global};

/// A letter, or as `(` a list. `parent` is the index of the list around it.
#[derive(Clone, Copy, Debug, PartialEq, Drop)]
pub struct Node {
    pub sign: u8,
    pub parent: Option<usize>,
}

/// The list that is open, by its index, and all nodes so far. Where a list is open inside it, that one has the nodes.
#[derive(Drop)]
pub struct Open {
    alloc: Global,
    list: Option<usize>,
    nodes: Vec<Node>,
}

impl Frame for Open {
    type Item = u8;

    type Value = Vec<Node>;

    fn take(self, sign: u8) -> Result<Next<Open, Vec<Node>>, AllocError> {
        let Open {
            alloc,
            list,
            mut nodes,
        } = self;
        if sign == b')' {
            return Ok(match list {
                Some(_) => Next::Close(nodes),
                None => Next::Refuse("list expected"),
            });
        }
        let index = nodes.len();
        nodes.push(Node { sign, parent: list })?;
        if sign == b'(' {
            let around = Open {
                alloc,
                list,
                nodes: Vec::new(alloc),
            };
            let inside = Open {
                alloc,
                list: Some(index),
                nodes,
            };
            return Ok(Next::Open(around, inside));
        }
        Ok(Open::go_on(alloc, list, nodes))
    }

    fn join(self, nodes: Vec<Node>) -> Result<Next<Open, Vec<Node>>, AllocError> {
        Ok(Open::go_on(self.alloc, self.list, nodes))
    }
}

impl Open {
    /// Goes on in the list with these nodes, or ends where no list is open.
    fn go_on(alloc: Global, list: Option<usize>, nodes: Vec<Node>) -> Next<Open, Vec<Node>> {
        match list {
            Some(_) => Next::Stay(Open { alloc, list, nodes }),
            None => Next::Close(nodes),
        }
    }
}

/// Returns the nodes of a letter, or of a list of letters and lists, and the rest of the input.
pub fn read_tree(
    alloc: Global,
    depth: usize,
    input: &[u8],
) -> Result<(Vec<Node>, &[u8]), UnexpectedParse> {
    let root = move || Open {
        alloc,
        list: None,
        nodes: Vec::new(alloc),
    };
    let sign = |byte: u8| byte.is_ascii_lowercase() || matches!(byte, b'(' | b')');
    nested(alloc, depth, root, always(satisfy(sign))).parse(input)
}

//! Trees of values.
//!
//! A tree is let go, copied and written by recursion, as deep as it was built; one that is read is at most 64 lists and
//! dictionaries deep.
ghost use Rattle.std.specs.Prelude.{◌≡◌, IfOk};
ghost use Rattle.px_tnet.specs.View.{listed, paired, pairs_view, trees_view, view};

use px_text::Bytes;
use std::alloc::AllocError;

/// A tree of values.
#[derive(Debug, PartialEq, Drop)]
#[cycle(tree)]
pub enum Tnet {
    Blob(Bytes),
    Text(Bytes),
    Int(i64),
    Float(Bytes),
    Bool(bool),
    Null,
    List(TnetList),
    Dict(TnetDict),
}

/// Trees in order.
#[derive(Debug, PartialEq, Drop)]
#[cycle(tree)]
pub struct TnetList {
    items: Vec<Tnet>,
}

/// Keys with their trees, in order.
#[derive(Debug, PartialEq, Drop)]
#[cycle(tree)]
pub struct TnetDict {
    pairs: Vec<(TnetKey, Tnet)>,
}

/// What a tree in a dictionary is called: a text where `text` is true, and else bytes of any kind.
#[derive(Debug, PartialEq, Clone, Drop)]
pub struct TnetKey {
    pub text: bool,
    pub bytes: Bytes,
}

impl TnetList {
    /// These trees.
    pub fn new(items: Vec<Tnet>) -> TnetList
        ensures { listed result ≡ items.items }
    {
        TnetList { items }
    }

    /// The trees.
    pub fn as_slice(&self) -> &[Tnet]
        ensures { result.now ≡ listed self.now }
    {
        self.items.as_slice()
    }
}

impl TnetDict {
    /// These keys and trees.
    pub fn new(pairs: Vec<(TnetKey, Tnet)>) -> TnetDict
        ensures { paired result ≡ pairs.items }
    {
        TnetDict { pairs }
    }

    /// The keys and trees.
    pub fn as_slice(&self) -> &[(TnetKey, Tnet)]
        ensures { result.now ≡ paired self.now }
    {
        self.pairs.as_slice()
    }
}

impl Clone for Tnet {
    ghost is_clone = { λ x y. view y ≡ view x };

    /// The same tree; its bytes are shared, and its lists are copied.
    fn clone(&self) -> Result<Tnet, AllocError> {
        copy(self)
    }
}

#[cycle(copy)]
fn copy(tree: &Tnet) -> Result<Tnet, AllocError>
    ensures { IfOk result (λ t. view t ≡ view tree.now) }
{
    match tree {
        Tnet::Blob(bytes) => Ok(Tnet::Blob(bytes.clone()?)),
        Tnet::Text(bytes) => Ok(Tnet::Text(bytes.clone()?)),
        Tnet::Int(n) => Ok(Tnet::Int(*n)),
        Tnet::Float(bytes) => Ok(Tnet::Float(bytes.clone()?)),
        Tnet::Bool(b) => Ok(Tnet::Bool(*b)),
        Tnet::Null => Ok(Tnet::Null),
        Tnet::List(list) => Ok(Tnet::List(copy_list(list)?)),
        Tnet::Dict(dict) => Ok(Tnet::Dict(copy_dict(dict)?)),
    }
}

#[cycle(copy)]
fn copy_list(list: &TnetList) -> Result<TnetList, AllocError>
    ensures { IfOk result (λ l. trees_view (listed l) ≡ trees_view (listed list.now)) }
{
    let mut items = Vec::with_capacity(*list.items.allocator(), list.items.len())?;
    for tree in &list.items {
        items.push(copy(tree)?)?;
    }
    Ok(TnetList { items })
}

#[cycle(copy)]
fn copy_dict(dict: &TnetDict) -> Result<TnetDict, AllocError>
    ensures { IfOk result (λ d. pairs_view (paired d) ≡ pairs_view (paired dict.now)) }
{
    let mut pairs = Vec::with_capacity(*dict.pairs.allocator(), dict.pairs.len())?;
    for (key, tree) in &dict.pairs {
        let key = key.clone()?;
        pairs.push((key, copy(tree)?))?;
    }
    Ok(TnetDict { pairs })
}

//! A grammar on standard output.
use crate::depth::depth;
use format::node::{Node, Tree};
use grammar::grammar::Grammar;
use std::io;
use summary::counts::Counts;

/// The counts, and then the trees.
pub(crate) fn grammar(rt: &HostRuntime, grammar: &Grammar) -> io::Result<()> {
    let Counts {
        labels,
        words,
        trees,
        nodes,
    } = Counts::from(grammar);
    println!(rt; "labels {labels}, words {words}, trees {trees}, nodes {nodes}")?;
    for (number, tree) in (0..=u8::MAX).zip(grammar.trees()) {
        show_tree(rt, number, tree, grammar.nodes(number))?;
    }
    Ok(())
}

/// A tree's line, and then its nodes.
fn show_tree(rt: &HostRuntime, number: u8, tree: &Tree, nodes: &[Node]) -> io::Result<()> {
    let form = tree.form;
    let label = tree.label;
    println!(rt; "tree {number}: {form}, label {label}")?;
    for (number, node) in nodes.iter().enumerate() {
        indent(rt, depth(&nodes[..number], number))?;
        show_node(rt, number, node)?;
    }
    Ok(())
}

/// Two spaces for the root, and two more for each step below it.
fn indent(rt: &HostRuntime, depth: usize) -> io::Result<()> {
    for _ in 0..depth {
        print!(rt; "  ")?;
    }
    print!(rt; "  ")
}

/// A node's line past its indentation.
fn show_node(rt: &HostRuntime, number: usize, node: &Node) -> io::Result<()> {
    let kind = node.kind;
    match &node.constraint {
        Some(constraint) => println!(rt; "{number} {kind}, {constraint}"),
        None => println!(rt; "{number} {kind}"),
    }
}

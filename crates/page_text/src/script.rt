//! The script that steps through the places. It reads the places of elements and hides them or not, and makes no markup.

/// The script by which a reader steps through the places. It has no ampersand and no less-than sign, so that it stands in XML as it is.
pub(crate) const SCRIPT: &str = "<script>
(function () {
'use strict';
var steps = document.getElementById('steps');
var slider = document.getElementById('place');
var rows = document.querySelectorAll('.chart g.entry');
var chart = document.querySelector('.chart');
var names = document.querySelector('.lanes');
var last = Number(slider.max);
var parts = Array.from(document.querySelectorAll('[data-f]'), function (part) {
  return { part: part, from: Number(part.dataset.f), to: Number(part.dataset.t) };
});
function show(place) {
  parts.forEach(function (one) {
    var is_out = one.from > place || place > one.to;
    if (one.part.hidden !== is_out) { one.part.hidden = is_out; }
  });
  rows.forEach(function (row, at) { row.classList.toggle('now', at + 1 === place); });
  var row = rows[place - 1];
  if (row) {
    var box = chart.getBoundingClientRect();
    var here = row.getBoundingClientRect();
    var top = box.top + names.offsetHeight;
    if (top > here.top) { chart.scrollTop -= top - here.top; }
    if (here.bottom > box.bottom) { chart.scrollTop += here.bottom - box.bottom; }
  } else {
    chart.scrollTop = 0;
  }
}
function go(place) {
  slider.value = Math.max(0, Math.min(last, place));
  show(Number(slider.value));
}
slider.addEventListener('input', function () { show(Number(slider.value)); });
document.getElementById('back').addEventListener('click', function () { go(Number(slider.value) - 1); });
document.getElementById('on').addEventListener('click', function () { go(Number(slider.value) + 1); });
document.addEventListener('keydown', function (event) {
  if (event.target === slider || event.altKey || event.ctrlKey || event.metaKey) { return; }
  var to = { ArrowLeft: Number(slider.value) - 1, ArrowRight: Number(slider.value) + 1, Home: 0, End: last }[event.key];
  if (to !== undefined) { event.preventDefault(); go(to); }
});
rows.forEach(function (row, at) { row.addEventListener('click', function () { go(at + 1); }); });
window.addEventListener('beforeprint', function () { go(last); });
steps.querySelectorAll('button,input,label').forEach(function (part) { part.hidden = false; });
go(last);
}());
</script>
";
